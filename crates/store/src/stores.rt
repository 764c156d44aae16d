// A store over entries, with room for a fixed number of them; the table and the log are the two that are to be had.
ghost use Rattle.std.specs.Prelude.{◌≡◌, ◌+◌, ◌≤◌, vec_len, vec_capacity};
ghost use Rattle.store.specs.Rows.{held_in};
ghost use Rattle.store.specs.Entries.{row_in};

use crate::entry::Entry;
use crate::writing::{Append, Overwrite};
use std::marker::PhantomData;

// A store of up to `capacity` rows, in entries of which SPARE more stay free for a row's successor.
// Its bounds are stated here and for a carrier's row: a vector of both would be a crate for three clauses.
// SPARE stands beside W, which settles it: the invariants count with it, and as a constant of W they would need a bound on the type and on each definition over it.
#[derive(Drop)]
pub struct EntryStore<W, const SPARE: usize> {
    pub(crate) entries: Vec<Entry>,
    pub(crate) capacity: usize,
    pub(crate) way: PhantomData<W>,
    ghost size: { (1 ≤ capacity) × (capacity + SPARE ≤ 320) },
    ghost within: { vec_len entries ≤ capacity },
    ghost reserved: { capacity + SPARE ≤ vec_capacity entries },
    ghost apart: { held_in (row_in entries.items) ≡ vec_len entries },
}

// A store of 1 to 320 rows, each in a place of its own, overwritten there.
pub type Table = EntryStore<Overwrite, 0>;

// A store of 2 to 320 entries, one of which is always free: a row's successor is written whole before the row is given up.
pub type Log = EntryStore<Append, 1>;
