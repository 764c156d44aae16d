// The ways to write a row among entries.
// They take the vector itself, since a struct is no plainer: between the steps of a log a key has two entries, so all that an invariant could keep is the room, and each clause on it would stay.
ghost use Rattle.std.specs.Prelude.{◌≡◌, ℕ, ◌+◌, ◌<◌, ◌≤◌, Some, vec_len, vec_capacity};
ghost use Rattle.store.specs.Entries.{bytes_in, row_in, Newest, Obsolete, Wrote};

use crate::entry::Entry;

// How a row's successor takes the place of the row's entry, for which SPARE entries stay free.
pub trait Supersede<const SPARE: usize> {
    // Writes a row whose key had another at a place.
    fn supersede(entries: &mut Vec<Entry>, place: usize, entry: Entry)
        requires newest { Newest entry.key entries.old.items (Some place) }
        requires room { vec_len entries.old + SPARE ≤ vec_capacity entries.old }
        ensures wrote { Wrote entry.key (bytes_in entry) entries.old.items entries.new.items }
        ensures len { vec_len entries.new ≡ vec_len entries.old }
        ensures capacity { vec_capacity entries.new ≡ vec_capacity entries.old };
}

// The successor is written over the entry.
pub struct Overwrite;

// The successor is written whole behind the others, and then the entry, which no longer counts, is given up.
pub struct Append;

impl Supersede<0> for Overwrite {
    fn supersede(entries: &mut Vec<Entry>, place: usize, entry: Entry) {
        entries[place] = entry;
    }
}

impl Supersede<1> for Append {
    fn supersede(entries: &mut Vec<Entry>, place: usize, entry: Entry) {
        add(entries, entry);
        give_up(entries, place);
    }
}

// A row, written behind the others. An entry that its key had no longer counts.
pub fn add(entries: &mut Vec<Entry>, entry: Entry)
    requires { vec_len entries.old < vec_capacity entries.old }
    ensures obsolete { (p : ℕ) → Newest entry.key entries.old.items (Some p) → Obsolete entries.new.items p }
    ensures wrote { Wrote entry.key (bytes_in entry) entries.old.items entries.new.items }
    ensures len { vec_len entries.new ≡ vec_len entries.old + 1 }
    ensures capacity { vec_capacity entries.new ≡ vec_capacity entries.old }
{
    entries.push_reserved(entry);
}

// Takes out an entry that no longer counts. No other can be: its successor has to be there already.
fn give_up(entries: &mut Vec<Entry>, place: usize)
    requires { Obsolete entries.old.items place }
    ensures rows { (k : ℕ) → row_in entries.new.items k ≡ row_in entries.old.items k }
    ensures len { vec_len entries.new + 1 ≡ vec_len entries.old }
    ensures capacity { vec_capacity entries.new ≡ vec_capacity entries.old }
{
    entries.remove(place);
}
