// A row of letters in the order in which they came, with room for a fixed number of them.
ghost use Rattle.std.specs.Prelude.{◌≡◌, ◌<◌, ◌≤◌, length, Decides};
ghost use Rattle.carrier.specs.Mail.{letter};
ghost use Rattle.carrier.specs.Posts.{Posted, Fetched};
ghost use Rattle.carrier.specs.Queues.{letters, MakesRow, TakesOut, Found, FromPlace, AtEnd, row_mail};

use crate::checks::{check_fetch, check_letter};
use crate::kinds::{Address, Row, Slot};
use fault::{Cause, Fault, Layer, NotMade};
use std::alloc::Global;

impl Row {
    // An empty row with room for 1 to 64 letters, whose memory is taken here.
    pub(crate) fn new(heap: Global, room: usize) -> Result<Row, NotMade>
        ensures { MakesRow room result }
    {
        if !(1..=64).contains(&room) {
            return Err(Fault::new(Layer::Carrier, Cause::Range).into());
        }
        let slots = Vec::with_capacity(heap, room)?;
        Ok(Row { slots, room })
    }

    pub(crate) fn is_full(&self) -> bool
        ensures { Decides result (length (letters self.now) ≡ self.now.room) }
    {
        self.slots.len() == self.room
    }

    // Takes the letter at a place out, and copies its text to the front of the buffer.
    pub(crate) fn take(&mut self, place: usize, buffer: &mut [u8]) -> usize
        requires there { place < length (letters self.old) }
        requires long { 768 ≤ length buffer.old }
        ensures taken { TakesOut place result buffer.old buffer.new (letters self.old) (letters self.new) }
        ensures room { self.new.room ≡ self.old.room }
    {
        let slot = self.slots.remove(place);
        slot.copy_to(buffer)
    }

    // Puts a letter at the end, if it can be carried and there is room.
    pub(crate) fn post(&mut self, to: Address, text: &[u8]) -> Result<(), Fault>
        ensures posted { Posted (letter to.number text.now) (row_mail self.old) (row_mail self.new) result }
        ensures last { AtEnd (letter to.number text.now) (letters self.old) (letters self.new) result }
    {
        check_letter(to, text)?;
        if self.is_full() {
            return Err(Fault::new(Layer::Carrier, Cause::CarrierFull));
        }
        self.slots.push_reserved(Slot::new(to, text));
        Ok(())
    }

    // Hands out the letter at the place that was found for an address.
    pub(crate) fn fetch(
        &mut self,
        to: Address,
        place: Option<usize>,
        buffer: &mut [u8],
    ) -> Result<usize, Fault>
        requires { Found to.number (letters self.old) place }
        ensures fetched { Fetched to.number buffer.old buffer.new (row_mail self.old) (row_mail self.new) result }
        ensures there { FromPlace place buffer.old buffer.new (letters self.old) (letters self.new) result }
    {
        check_fetch(to, buffer)?;
        let Some(place) = place else {
            return Err(Fault::new(Layer::Carrier, Cause::NoMail));
        };
        Ok(self.take(place, buffer))
    }
}
