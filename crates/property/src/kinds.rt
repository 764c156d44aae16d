// What the properties of a text say, each in a type of its own.
ghost use Rattle.std.specs.Prelude.{◌≡◌, ℕ, ◌<◌, ◌≤◌, true, length, slice_index};
ghost use Rattle.property.specs.Bytes.{title_byte};

use rank::Sequence;
use stamp::Stamp;

// A meeting's number, 1 to 32. Other numbers are no meeting, and are refused where one is asked for.
#[derive(Clone, Copy, PartialEq, Eq, Debug)]
pub struct Meeting {
    pub number: u8,
}

// A door's number, 1 to 8. Other numbers are no door, and are refused where one is asked for.
#[derive(Clone, Copy, PartialEq, Eq, Debug)]
pub struct Door {
    pub number: u8,
}

// What a door can answer.
#[derive(Clone, Copy, PartialEq, Eq, Debug)]
pub enum Answer {
    Accepted,
    Declined,
    Tentative,
}

// What the site holds of a door's answer: the answer that it shows, none for NEEDS-ACTION, and the stamp of the REPLY.
#[derive(Clone, Copy, PartialEq, Eq, Debug)]
pub struct Heard {
    pub shown: Option<Answer>,
    pub at: Stamp,
}

// ATTENDEE: the door that the site invites, with what it holds of the door's answer, or the door that answers.
#[derive(Clone, Copy)]
pub enum Attendee {
    Invited { door: Door, heard: Option<Heard> },
    Answering { door: Door, answer: Answer },
}

// A title: up to 40 bytes that may stand in one. The empty one stands for none, since a rule of ranges needs it: the writer refuses it.
// An array with a length: an `ArrayVec` cannot be copied with the message that a title is part of, and an `ArrayString` does not promise that what is not used stays 0.
#[derive(Clone, Copy)]
pub struct Title {
    pub(crate) len: usize,
    pub(crate) bytes: [u8; 40],
    ghost whole: { length bytes ≡ 40 },
    ghost short: { len ≤ 40 },
    ghost fit: { (k : ℕ) → k < len → title_byte (slice_index bytes k) ≡ true },
}

// From a start to an end.
#[derive(Clone, Copy, PartialEq, Eq, Debug)]
pub struct Period {
    pub start: Stamp,
    pub end: Stamp,
}

// What one line of an event says: a property with its value.
#[derive(Clone, Copy)]
pub enum Value {
    Uid(Meeting),
    Dtstamp(Stamp),
    Sequence(Sequence),
    Organizer,
    Attendee(Attendee),
    Summary(Title),
    Dtstart(Stamp),
    Dtend(Stamp),
    Rdate(Period),
    Status,
    Basis(Stamp),
}
