// Where a letter goes, and a letter that waits.
ghost use Rattle.std.specs.Prelude.{◌<◌, ◌≤◌, vec_len, vec_capacity};
ghost use Rattle.arrayvec.specs.ArrayVec.{array_vec_len};

use arrayvec::ArrayVec;

// The longest text, and the shortest buffer that a fetch takes.
pub const LONGEST: usize = 768;

// The end of an address: 0 is the site, 1 to 8 are the doors. Other numbers are no address, and are refused where one is asked for.
// A plain number, since a rule of carriers needs it: a bad address has to exist to be refused.
#[derive(Clone, Copy, PartialEq, Eq, Debug)]
pub struct Address {
    pub number: u8,
}

// A place that holds one letter. The text stands first: a letter is then moved into the row by one copy.
#[derive(Drop)]
pub struct Slot {
    pub(crate) text: ArrayVec<u8, LONGEST>,
    pub(crate) to: Address,
    ghost address: { to.number ≤ 8 },
    ghost some: { (1 ≤ array_vec_len text) × (array_vec_len text ≤ 768) },
}

// Letters in the order in which they came, and room for a fixed number of them.
// Its bounds are stated here and for the entries of a store: a vector of both would be a crate for three clauses.
#[derive(Drop)]
pub struct Row {
    pub(crate) slots: Vec<Slot>,
    pub(crate) room: usize,
    ghost size: { (1 ≤ room) × (room ≤ 64) },
    ghost held: { vec_len slots ≤ room },
    ghost reserved: { room ≤ vec_capacity slots },
}

// A carrier that keeps its letters in a row, and hands them out in an order of its own.
#[derive(Drop)]
pub struct Queue<O> {
    pub(crate) row: Row,
    pub(crate) order: O,
}

// The oldest letter for an address goes first.
#[derive(Clone, Copy, Default, Debug)]
pub struct Oldest;

// The latest letter for an address goes first.
#[derive(Clone, Copy, Default, Debug)]
pub struct Latest;

// What becomes of a letter that is posted: it is lost, carried, or carried twice.
#[derive(Clone, Copy, PartialEq, Eq, Debug)]
pub enum Fate {
    Lost,
    Carried,
    Doubled,
}

// The fates of letters one after another, over and over.
#[derive(Drop)]
pub struct Plan {
    pub(crate) fates: Vec<Fate>,
    ghost size: { (1 ≤ vec_len fates) × (vec_len fates ≤ 64) },
}

// A carrier over another, which loses and doubles by plan. `next` is the place of the next letter's fate.
#[derive(Drop)]
pub struct Fates<C> {
    pub(crate) below: C,
    pub(crate) plan: Plan,
    pub(crate) next: usize,
    ghost within: { next < vec_len plan.fates },
}
