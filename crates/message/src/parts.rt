// What a message says, property by property, in the order in which they stand in a text.
ghost use Rattle.std.specs.Prelude.{◌≡◌, ◌≤◌, length, Some, MatchOption};
ghost use Rattle.std.specs.List.{slice_get};
ghost use Rattle.property.specs.Values.{part_of, attendee};
ghost use Rattle.message.specs.Meaning.{parts_of, method_of, body_parts, body_method, further_of, date_parts, attendee_of, later};

use crate::kinds::{Body, Message, Method, Periods};
use property::{Attendee, Door, Value};

impl Message {
    pub fn method(&self) -> Method
        ensures { result ≡ method_of self.now }
    {
        match self.body {
            Body::Request { .. } => Method::Request,
            Body::Cancel { .. } => Method::Cancel,
            Body::Reply { .. } => Method::Reply,
        }
    }

    // The property at a place, from 0 on, or none behind the last.
    pub fn value(&self, place: usize) -> Option<Value>
        ensures { MatchOption result (length (parts_of self.now) ≤ place) (λ v. slice_get (parts_of self.now) place ≡ Some (part_of v)) }
    {
        match place {
            0 => Some(Value::Uid(self.meeting)),
            1 => Some(Value::Dtstamp(self.dtstamp)),
            2 => Some(Value::Sequence(self.sequence)),
            3 => Some(Value::Organizer),
            4 => Some(Value::Attendee(self.body.attendee(self.door))),
            _ => self.body.value(place - 5),
        }
    }
}

impl Body {
    fn attendee(&self, door: Door) -> Attendee
        ensures { result ≡ attendee_of door self.now }
    {
        match *self {
            Body::Request { heard, .. } | Body::Cancel { heard } => Attendee::Invited {
                door,
                heard,
            },
            Body::Reply { answer, .. } => Attendee::Answering { door, answer },
        }
    }

    // The property at a place behind ATTENDEE.
    fn value(&self, place: usize) -> Option<Value>
        ensures { MatchOption result (length (later self.now) ≤ place) (λ v. slice_get (later self.now) place ≡ Some (part_of v)) }
    {
        match *self {
            Body::Request { title, dates, .. } => {
                if place == 0 {
                    Some(Value::Summary(title))
                } else {
                    dates.value(place - 1)
                }
            }
            Body::Cancel { .. } => alone(Value::Status, place),
            Body::Reply { basis, .. } => alone(Value::Basis(basis), place),
        }
    }
}

// A value that stands alone, at place 0.
fn alone(value: Value, place: usize) -> Option<Value>
    ensures { MatchOption result (1 ≤ place) (λ v. (place ≡ 0) × (v ≡ value)) }
{
    (place == 0).then_some(value)
}

impl Periods {
    // The property at a place among those of the dates.
    fn value(&self, place: usize) -> Option<Value>
        ensures { MatchOption result (length (date_parts self.now) ≤ place) (λ v. slice_get (date_parts self.now) place ≡ Some (part_of v)) }
    {
        match place {
            0 => Some(Value::Dtstart(self.first.start)),
            1 => Some(Value::Dtend(self.first.end)),
            _ if place - 2 < self.count => Some(Value::Rdate(self.further[place - 2])),
            _ => None,
        }
    }
}
