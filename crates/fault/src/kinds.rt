// What a fault is made of. The number by which each cause, layer and property is known stands with its name.

// Why a call refused what it was given.
#[derive(Clone, Copy, PartialEq, Eq, Debug)]
pub enum Cause {
    // A line that is no content line, or a text of a bad length.
    Line = 1,
    // A line of the calendar's frame that is missing or out of its place.
    Frame = 2,
    // A method that is none of REQUEST, CANCEL and REPLY.
    Method = 3,
    // A property that is missing, damaged or out of its place.
    Malformed = 4,
    // A text that is not for this end: its kind or its ATTENDEE.
    Misdirected = 5,
    // A meeting, door or copy that is not known here.
    Unknown = 6,
    // A text that is older than what is held.
    Stale = 7,
    // A text that claims more than was ever sent.
    Ahead = 8,
    // A date, or a list of dates, that breaks the rule of dates.
    Dates = 9,
    // A value outside its range.
    Range = 10,
    // A meeting number that is in use.
    Taken = 11,
    // A meeting that is over.
    Over = 12,
    // No stamp, or no SEQUENCE, is left.
    Spent = 13,
    // No room in the store.
    StoreFull = 14,
    // No room in the carrier.
    CarrierFull = 15,
    // A buffer that is too short.
    Short = 16,
    // Nothing waits for the address.
    NoMail = 17,
    // A draft without a door, or without a date.
    Unfinished = 18,
    // There is no answer to repeat.
    NoAnswer = 19,
    // A row that cannot be read.
    Unreadable = 20,
}

// Where in the program a fault belongs.
#[derive(Clone, Copy, PartialEq, Eq, Debug)]
pub enum Layer {
    Lines = 1,
    Framing = 2,
    Properties = 3,
    Engine = 4,
    Store = 5,
    Carrier = 6,
}

// The properties of a text, in the order in which they stand there. Basis is X-BASIS, the DTSTAMP of the revision that an answer is for.
#[derive(Clone, Copy, PartialEq, Eq, Debug)]
pub enum Property {
    Uid = 1,
    Dtstamp = 2,
    Sequence = 3,
    Organizer = 4,
    Attendee = 5,
    Summary = 6,
    Dtstart = 7,
    Dtend = 8,
    Rdate = 9,
    Status = 10,
    Basis = 11,
}

// A refusal: why, where, and what in a text it is about, if it is about one. A line counts from 1.
#[derive(Clone, Copy, PartialEq, Eq, Debug)]
pub struct Fault {
    pub cause: Cause,
    pub layer: Layer,
    pub line: Option<u32>,
    pub property: Option<Property>,
}

// Why a thing that takes its memory when it is made was not made: a value was refused, or memory is short.
#[derive(Clone, Copy, PartialEq, Eq, Debug)]
pub enum NotMade {
    Refused(Fault),
    Memory,
}
