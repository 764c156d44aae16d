// The text that names a method, and the properties that each has, in their order.
ghost use Rattle.std.specs.Prelude.{◌≡◌, MatchOption, ◌≢◌};
ghost use Rattle.message.specs.Meaning.{order, wanted, required};
ghost use Rattle.message.specs.Names.{ReadsMethod};
ghost use Rattle.message.specs.declared.kinds.Method.{Method};

use crate::kinds::Method;
use fault::{Cause, Fault, Layer, Property};

const REQUEST: [Property; 13] = [
    Property::Uid,
    Property::Dtstamp,
    Property::Sequence,
    Property::Organizer,
    Property::Attendee,
    Property::Summary,
    Property::Dtstart,
    Property::Dtend,
    Property::Rdate,
    Property::Rdate,
    Property::Rdate,
    Property::Rdate,
    Property::Rdate,
];

const CANCEL: [Property; 6] = [
    Property::Uid,
    Property::Dtstamp,
    Property::Sequence,
    Property::Organizer,
    Property::Attendee,
    Property::Status,
];

const REPLY: [Property; 6] = [
    Property::Uid,
    Property::Dtstamp,
    Property::Sequence,
    Property::Organizer,
    Property::Attendee,
    Property::Basis,
];

// The method that the text of a METHOD line names.
impl<'a> TryFrom<&'a [u8]> for Method {
    type Error = Fault;

    ghost try_from_gives = { λ text r. ReadsMethod text.now r };

    fn try_from(text: &'a [u8]) -> Result<Method, Fault> {
        match text {
            b":REQUEST" => Ok(Method::Request),
            b":CANCEL" => Ok(Method::Cancel),
            b":REPLY" => Ok(Method::Reply),
            _ => Err(Fault::new(Layer::Framing, Cause::Method)),
        }
    }
}

impl Method {
    fn order(self) -> &'static [Property]
        ensures { result.now ≡ order self }
    {
        match self {
            Method::Request => &REQUEST,
            Method::Cancel => &CANCEL,
            Method::Reply => &REPLY,
        }
    }

    // How many properties an event must have.
    pub(crate) fn required(self) -> usize
        ensures { result ≡ required self }
    {
        match self {
            Method::Request => 8,
            Method::Cancel | Method::Reply => 6,
        }
    }

    // The property that is wanted after so many, or none where no more may stand.
    pub(crate) fn wanted(self, read: usize) -> Option<Property>
        ensures { result ≡ wanted self read }
    {
        self.order().get(read).copied()
    }
}
