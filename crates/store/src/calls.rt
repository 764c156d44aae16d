// The store over entries: made, and called.
ghost use Rattle.store.specs.Stores.{rows_of, MakesStore, MakesTable, MakesLog};
ghost use Rattle.store.specs.Keeping.{entries_sound};

use crate::entries::{find, get_from};
use crate::entry::{Entry, Key};
use crate::rows::Store;
use crate::stores::{EntryStore, Log, Table};
use crate::writing::{Supersede, add};
use fault::{Cause, Fault, Layer, NotMade};
use std::alloc::Global;
use std::marker::PhantomData;

impl<W: Supersede<SPARE>, const SPARE: usize> EntryStore<W, SPARE> {
    // An empty store of SPARE + 1 to 320 entries, whose memory is taken here.
    pub fn of(heap: Global, size: usize) -> Result<EntryStore<W, SPARE>, NotMade>
        ensures { MakesStore SPARE size result }
    {
        // Two tests and no range: for a store in general SPARE + 1 may be past the last number.
        if size <= SPARE || size > 320 {
            return Err(Fault::new(Layer::Store, Cause::Range).into());
        }
        let entries = Vec::with_capacity(heap, size)?;
        Ok(EntryStore {
            entries,
            capacity: size - SPARE,
            way: PhantomData,
        })
    }
}

impl Table {
    // An empty table of 1 to 320 slots, whose memory is taken here.
    pub fn new(heap: Global, slots: usize) -> Result<Table, NotMade>
        ensures { MakesTable slots result }
    {
        EntryStore::of(heap, slots)
    }
}

impl Log {
    // An empty log of 2 to 320 entries, whose memory is taken here.
    pub fn new(heap: Global, size: usize) -> Result<Log, NotMade>
        ensures { MakesLog size result }
    {
        EntryStore::of(heap, size)
    }
}

impl<W: Supersede<SPARE>, const SPARE: usize> Store for EntryStore<W, SPARE> {
    ghost rows = { rows_of };

    ghost sound = { entries_sound };

    fn put(&mut self, key: Key, row: &[u8]) -> Result<(), Fault> {
        let entry = Entry::new(key, row)?;
        match find(self.entries.as_slice(), key) {
            Some(place) => W::supersede(&mut self.entries, place, entry),
            None => {
                if self.entries.len() >= self.capacity {
                    return Err(Fault::new(Layer::Store, Cause::StoreFull));
                }
                add(&mut self.entries, entry);
            }
        }
        Ok(())
    }

    fn get(&self, key: Key, buffer: &mut [u8]) -> Result<usize, Fault> {
        get_from(self.entries.as_slice(), key, buffer)
    }

    fn held(&self) -> usize {
        self.entries.len()
    }
}
