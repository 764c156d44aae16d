// A key, and a row with its key.
ghost use Rattle.std.specs.Prelude.{◌≤◌};
ghost use Rattle.arrayvec.specs.ArrayVec.{array_vec_len};

use arrayvec::ArrayVec;

// The longest row, and the shortest buffer that a get takes.
pub const LONGEST: usize = 192;

// The highest key.
pub const LAST: u16 = 1_023;

// The name of a row: 0 to 1,023. Other numbers are no key, and are refused where one is asked for.
// A plain number, since a rule of stores needs it: a bad key has to exist to be refused.
#[derive(Clone, Copy, PartialEq, Eq, Debug)]
pub struct Key {
    pub number: u16,
}

// A row with its key.
#[derive(Drop)]
pub struct Entry {
    pub(crate) key: u16,
    pub(crate) bytes: ArrayVec<u8, LONGEST>,
    ghost known: { key ≤ 1023 },
    ghost some: { (1 ≤ array_vec_len bytes) × (array_vec_len bytes ≤ 192) },
}
