// The values of properties: the text of a property, read by the codec of its kind.
ghost use Rattle.std.specs.Prelude.{◌≡◌};
ghost use Rattle.fault.specs.declared.kinds.Property.{Property};
ghost use Rattle.property.specs.Values.{Reads, part_of, property_of};

use crate::codecs::{Text, after};
use crate::kinds::{Attendee, Value};
use fault::Property;

impl Value {
    // The value that a property has in this text, from its separator on, or none where the property never has this text. No `TryFrom`: it is asked with the property.
    pub fn read(property: Property, text: &[u8]) -> Option<Value>
        ensures { Reads property text.now result }
    {
        match property {
            Property::Uid => Some(Value::Uid(after(b":", text)?)),
            Property::Dtstamp => Some(Value::Dtstamp(after(b":", text)?)),
            Property::Sequence => Some(Value::Sequence(after(b":", text)?)),
            Property::Organizer => organizer(text),
            Property::Attendee => Some(Value::Attendee(Attendee::read(text)?)),
            Property::Summary => Some(Value::Summary(after(b":", text)?)),
            Property::Dtstart => Some(Value::Dtstart(after(b":", text)?)),
            Property::Dtend => Some(Value::Dtend(after(b":", text)?)),
            Property::Rdate => Some(Value::Rdate(after(b";VALUE=PERIOD:", text)?)),
            Property::Status => status(text),
            Property::Basis => Some(Value::Basis(after(b":", text)?)),
        }
    }

    // The property that this is a value of.
    pub fn property(&self) -> Property
        ensures { result ≡ property_of (part_of self.now) }
    {
        match *self {
            Value::Uid(_) => Property::Uid,
            Value::Dtstamp(_) => Property::Dtstamp,
            Value::Sequence(_) => Property::Sequence,
            Value::Organizer => Property::Organizer,
            Value::Attendee(_) => Property::Attendee,
            Value::Summary(_) => Property::Summary,
            Value::Dtstart(_) => Property::Dtstart,
            Value::Dtend(_) => Property::Dtend,
            Value::Rdate(_) => Property::Rdate,
            Value::Status => Property::Status,
            Value::Basis(_) => Property::Basis,
        }
    }
}

fn organizer(text: &[u8]) -> Option<Value>
    ensures { Reads Property.Organizer text.now result }
{
    match text {
        b":mailto:site@doors" => Some(Value::Organizer),
        _ => None,
    }
}

fn status(text: &[u8]) -> Option<Value>
    ensures { Reads Property.Status text.now result }
{
    match text {
        b":CANCELLED" => Some(Value::Status),
        _ => None,
    }
}
