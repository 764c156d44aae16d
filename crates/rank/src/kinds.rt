// The two kinds of things that have a rank. Their fields stand in the order in which they are compared.
use stamp::Stamp;

// SEQUENCE: how often a meeting's dates or status have changed.
#[derive(Clone, Copy, PartialEq, Eq, PartialOrd, Ord, Debug)]
pub struct Sequence {
    pub number: u16,
}

// What tells one revision of a meeting from another.
#[derive(Clone, Copy, PartialEq, Eq, PartialOrd, Ord, Debug)]
pub struct Revision {
    pub sequence: Sequence,
    pub dtstamp: Stamp,
}

// What tells one answer of a door from another: the SEQUENCE that it answers, its own stamp, and its basis, the DTSTAMP of the revision that it answers.
#[derive(Clone, Copy, PartialEq, Eq, PartialOrd, Ord, Debug)]
pub struct AnswerRank {
    pub sequence: Sequence,
    pub stamp: Stamp,
    pub basis: Stamp,
}
