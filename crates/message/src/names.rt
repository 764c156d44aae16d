// What the names of lines stand for.
ghost use Rattle.std.specs.Prelude.{◌≡◌};
ghost use Rattle.message.specs.Names.{kind_of};

use crate::kinds::Kind;
use fault::Property;

impl Kind {
    pub(crate) fn of(name: &[u8]) -> Kind
        ensures { result ≡ kind_of name.now }
    {
        match name {
            b"BEGIN" => Kind::Begin,
            b"END" => Kind::End,
            b"VERSION" => Kind::Version,
            b"PRODID" => Kind::Product,
            b"METHOD" => Kind::Method,
            b"UID" => Kind::Listed(Property::Uid),
            b"DTSTAMP" => Kind::Listed(Property::Dtstamp),
            b"SEQUENCE" => Kind::Listed(Property::Sequence),
            b"ORGANIZER" => Kind::Listed(Property::Organizer),
            b"ATTENDEE" => Kind::Listed(Property::Attendee),
            b"SUMMARY" => Kind::Listed(Property::Summary),
            b"DTSTART" => Kind::Listed(Property::Dtstart),
            b"DTEND" => Kind::Listed(Property::Dtend),
            b"RDATE" => Kind::Listed(Property::Rdate),
            b"STATUS" => Kind::Listed(Property::Status),
            b"X-BASIS" => Kind::Listed(Property::Basis),
            _ => Kind::Other,
        }
    }
}
