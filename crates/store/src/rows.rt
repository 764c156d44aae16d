// What a store is: rows by their keys, and what is known of them.
ghost use Rattle.std.specs.Prelude.{◌≡◌};
ghost use Rattle.store.specs.Rows.{Rows, Sound, Put, Got, held_in};

use crate::entry::Key;
use fault::Fault;

// A store means the rows of its keys, and how many it may hold, which never changes.
pub trait Store {
    ghost rows: { Self → Rows };

    // Sets the row of a key from 0 to 1,023, of 1 to 192 bytes. Refused: out of range, then full, exactly when the key is new and as many rows are held as may be.
    fn put(&mut self, key: Key, row: &[u8]) -> Result<(), Fault>
        ensures { Put key.number row.now (rows self.old) (rows self.new) result };

    // Copies the row of a key to the buffer's front and tells its length, 0 for none: a rule of stores asks for a length, and no row has none. Refused: a buffer under 192 bytes, then a bad key.
    fn get(&self, key: Key, buffer: &mut [u8]) -> Result<usize, Fault>
        ensures { Got key.number buffer.old buffer.new (rows self.now).row result };

    // How many rows are held.
    fn held(&self) -> usize
        ensures { result ≡ held_in (rows self.now).row };

    ghost sound: { (s : Self) → Sound (rows s) };
}
