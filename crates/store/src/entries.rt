// Entries: made, found, copied out.
ghost use Rattle.std.specs.Prelude.{◌≡◌, ◌≤◌, ◌++◌, length, drop, MatchResult};
ghost use Rattle.fault.specs.Numbers.{told};
ghost use Rattle.fault.specs.declared.kinds.Cause.TheVariants.{Range};
ghost use Rattle.fault.specs.declared.kinds.Layer.TheVariants.{Store};
ghost use Rattle.store.specs.Rows.{Fit, Got};
ghost use Rattle.store.specs.Entries.{bytes_in, row_in, Holds, Newest};

use crate::entry::{Entry, Key, LAST, LONGEST};
use arrayvec::ArrayVec;
use fault::{Cause, Fault, Layer};

impl Entry {
    // A row with its key, if it can be kept under it.
    pub fn new(key: Key, row: &[u8]) -> Result<Entry, Fault>
        ensures { MatchResult result (λ e. Holds key.number row.now e) (λ f. (f ≡ told Store Range) × (Fit key.number row.now → ⊥)) }
    {
        let range = Fault::new(Layer::Store, Cause::Range);
        if key.number > LAST || row.is_empty() {
            return Err(range);
        }
        let Ok(bytes) = ArrayVec::try_from(row) else {
            return Err(range);
        };
        Ok(Entry {
            key: key.number,
            bytes,
        })
    }

    // Copies the row to the front of the buffer, keeps the buffer's rest, and tells the length.
    // Three lines, as for a letter of a carrier: a function for both would be a crate for both, and no plainer.
    pub fn copy_to(&self, buffer: &mut [u8]) -> usize
        requires { 192 ≤ length buffer.old }
        ensures size { result ≡ length (bytes_in self.now) }
        ensures whole { buffer.new ≡ bytes_in self.now ++ drop result buffer.old }
    {
        let row = self.bytes.as_slice();
        buffer[..row.len()].copy_from_slice(row);
        row.len()
    }
}

// The place of the newest entry for a key.
pub fn find(entries: &[Entry], key: Key) -> Option<usize>
    ensures { Newest key.number entries.now result }
{
    entries.iter().rposition(|entry| entry.key == key.number)
}

// Copies the row of a key to the front of the buffer.
pub fn get_from(entries: &[Entry], key: Key, buffer: &mut [u8]) -> Result<usize, Fault>
    ensures { Got key.number buffer.old buffer.new (row_in entries.now) result }
{
    if buffer.len() < LONGEST {
        return Err(Fault::new(Layer::Store, Cause::Short));
    }
    if key.number > LAST {
        return Err(Fault::new(Layer::Store, Cause::Range));
    }
    match find(entries, key) {
        Some(place) => Ok(entries[place].copy_to(buffer)),
        // A length and no Option, since a rule of stores needs it: 0 tells that there is no row.
        None => Ok(0),
    }
}
