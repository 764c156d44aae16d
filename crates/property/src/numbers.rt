// The numbered things: meetings, doors and SEQUENCE.
ghost use Rattle.std.specs.Prelude.{◌≤◌, Decides};
ghost use Rattle.property.specs.Values.{MeetingText, DoorText, SequenceText};

use crate::codecs::Text;
use crate::digits::read_four;
use crate::kinds::{Door, Meeting};
use crate::marks::{is, strip};
use rank::Sequence;

// Meetings and doors stay two types, though each is a number up to a last one: by a type with the last number as its parameter, two kinds with one last number would be one.
impl Meeting {
    // Whether there is a meeting of this number.
    pub fn is_real(self) -> bool
        ensures { Decides result ((1 ≤ self.number) × (self.number ≤ 32)) }
    {
        (1..=32).contains(&self.number)
    }
}

impl Text for Meeting {
    ghost says = { MeetingText };

    // The meeting that a text names, or none.
    fn read(text: &[u8]) -> Option<Meeting> {
        let [a, b, c, d, tail @ ..] = strip(text, b"m")? else {
            return None;
        };
        if !is(tail, b"@doors") {
            return None;
        }
        let number = read_four(*a, *b, *c, *d)?;
        if !(1..=32).contains(&number) {
            return None;
        }
        Some(Meeting {
            number: number as u8,
        })
    }
}

impl Door {
    // Whether there is a door of this number.
    pub fn is_real(self) -> bool
        ensures { Decides result ((1 ≤ self.number) × (self.number ≤ 8)) }
    {
        (1..=8).contains(&self.number)
    }
}

impl Text for Door {
    ghost says = { DoorText };

    // The door that a text names as an address, or none.
    fn read(text: &[u8]) -> Option<Door> {
        let [digit, tail @ ..] = strip(text, b":mailto:d")? else {
            return None;
        };
        if !is(tail, b"@doors") {
            return None;
        }
        if !(b'1'..=b'8').contains(digit) {
            return None;
        }
        Some(Door {
            number: *digit - b'0',
        })
    }
}

impl Text for Sequence {
    ghost says = { SequenceText };

    // The SEQUENCE that a text writes, or none.
    fn read(text: &[u8]) -> Option<Sequence> {
        let number = match text {
            [d] => read_four(b'0', b'0', b'0', *d)?,
            [b'0', ..] => return None,
            [c, d] => read_four(b'0', b'0', *c, *d)?,
            [b, c, d] => read_four(b'0', *b, *c, *d)?,
            [a, b, c, d] => read_four(*a, *b, *c, *d)?,
            _ => return None,
        };
        Some(Sequence { number })
    }
}
