// A message, and what has been read of one.
ghost use Rattle.std.specs.Prelude.{◌≡◌, ◌≤◌, length};

use fault::Property;
use property::{Answer, Door, Heard, Meeting, Period, Title};
use rank::Sequence;
use stamp::Stamp;

// The methods of iTIP that are spoken here (RFC 5546): the site asks or calls off, a door answers.
#[derive(Clone, Copy, PartialEq, Eq, Debug)]
pub enum Method {
    Request,
    Cancel,
    Reply,
}

// The dates of a REQUEST as they stand in the text: the first, and up to five further ones.
// An array with a count: a message is copied with its dates, and neither a `Vec` nor an `ArrayVec` can be.
#[derive(Clone, Copy)]
pub struct Periods {
    pub(crate) first: Period,
    pub(crate) count: usize,
    pub(crate) further: [Period; 5],
    ghost few: { count ≤ 5 },
    ghost whole: { length further ≡ 5 },
}

// What a message says besides its meeting, SEQUENCE, DTSTAMP and door, which every method has.
#[derive(Clone, Copy)]
pub enum Body {
    Request {
        heard: Option<Heard>,
        title: Title,
        dates: Periods,
    },
    Cancel {
        heard: Option<Heard>,
    },
    Reply {
        answer: Answer,
        basis: Stamp,
    },
}

// A message record: a method and what its properties say.
#[derive(Clone, Copy)]
pub struct Message {
    pub meeting: Meeting,
    pub dtstamp: Stamp,
    pub sequence: Sequence,
    pub door: Door,
    pub body: Body,
}

// What the name of a line says of it: a line of the frame, a property, or a line to be skipped.
#[derive(Clone, Copy)]
pub enum Kind {
    Begin,
    Version,
    Product,
    Method,
    End,
    Listed(Property),
    Other,
}

// How far a text has been read: the line of the frame that is wanted next, the properties of the event, or nothing more. From its METHOD line on the method is known.
#[derive(Clone, Copy)]
pub enum Stage {
    Calendar,
    Version,
    Product,
    Method,
    Event(Method),
    Inside(Method),
    Closing(Method),
    Done(Method),
}

// The parts of an event, each in its place; those that were not read yet are blank.
// Blanks and no Options: the order of the properties says which were read, so an Option would say it twice and be taken apart unread.
#[derive(Clone, Copy)]
pub struct Event {
    pub(crate) meeting: Meeting,
    pub(crate) dtstamp: Stamp,
    pub(crate) sequence: Sequence,
    pub(crate) door: Door,
    pub(crate) heard: Option<Heard>,
    pub(crate) answer: Answer,
    pub(crate) title: Title,
    pub(crate) start: Stamp,
    pub(crate) end: Stamp,
    pub(crate) further: [Period; 5],
    pub(crate) basis: Stamp,
    ghost whole: { length further ≡ 5 },
}
