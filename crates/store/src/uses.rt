// What can be said of any store, from its rules alone.
ghost use Rattle.store.specs.Rows.{Kept};

use crate::entry::Key;
use crate::rows::Store;
use fault::Fault;

// Puts a row and gets it back: the row comes back, and every other key answers as before. Refused: as a put, which then changes nothing, and else as a get.
pub fn keep<S: Store>(
    store: &mut S,
    key: Key,
    row: &[u8],
    buffer: &mut [u8],
) -> Result<usize, Fault>
    ensures { Kept key.number row.now buffer.old buffer.new (S.rows store.old) (S.rows store.new) result }
{
    store.put(key, row)?;
    store.get(key, buffer)
}
