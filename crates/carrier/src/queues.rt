// The ring and the stack: one carrier that keeps its letters in a row, and two orders in which it hands them out.
ghost use Rattle.std.specs.Prelude.{◌≡◌, ℕ, ◌<◌};
ghost use Rattle.carrier.specs.Mail.{letter};
ghost use Rattle.carrier.specs.Posts.{Posted, Fetched, Counted};
ghost use Rattle.carrier.specs.Queues.{letters, row_mail, Picks, AtEnd, InOrder, MakesQueue};
ghost use Rattle.carrier.specs.Counting.{row_sound};

use crate::checks::check_address;
use crate::kinds::{Address, Latest, Oldest, Queue, Row};
use crate::mail::{Carrier, Countable};
use fault::{Fault, NotMade};
use std::alloc::Global;

// Hands out the oldest letter for an address first.
pub type Ring = Queue<Oldest>;

// Hands out the latest letter for an address first.
pub type Stack = Queue<Latest>;

// Which of the letters for an address goes first, by their places in the row.
pub trait Order {
    // The letter at the first place is handed out before the one at the second.
    ghost sooner: { ℕ → ℕ → Type 0 };

    fn pick(&self, row: &Row, to: Address) -> Option<usize>
        ensures { Picks sooner to.number (letters row.now) result };
}

impl Order for Oldest {
    ghost sooner = { λ k i. k < i };

    fn pick(&self, row: &Row, to: Address) -> Option<usize> {
        row.first_for(to)
    }
}

impl Order for Latest {
    ghost sooner = { λ k i. i < k };

    fn pick(&self, row: &Row, to: Address) -> Option<usize> {
        row.last_for(to)
    }
}

impl<O: Order + Default> Queue<O> {
    // An empty queue for 1 to 64 letters, whose memory is taken here.
    pub fn new(heap: Global, size: usize) -> Result<Queue<O>, NotMade>
        ensures { MakesQueue size result }
    {
        let row = Row::new(heap, size)?;
        let order = O::default();
        Ok(Queue { row, order })
    }
}

impl<O: Order> Carrier for Queue<O> {
    ghost mail = { λ q. row_mail q.row };

    ghost sound = { λ q. row_sound q.row };

    fn post(&mut self, to: Address, text: &[u8]) -> Result<(), Fault>
        ensures posted { Posted (letter to.number text.now) (row_mail self.old.row) (row_mail self.new.row) result }
        ensures last { AtEnd (letter to.number text.now) (letters self.old.row) (letters self.new.row) result }
    {
        self.row.post(to, text)
    }

    fn fetch(&mut self, to: Address, buffer: &mut [u8]) -> Result<usize, Fault>
        ensures fetched { Fetched to.number buffer.old buffer.new (row_mail self.old.row) (row_mail self.new.row) result }
        ensures first { InOrder O.Order.sooner to.number buffer.old buffer.new (letters self.old.row) (letters self.new.row) result }
    {
        let place = self.order.pick(&self.row, to);
        self.row.fetch(to, place, buffer)
    }

    fn is_full(&self) -> bool {
        self.row.is_full()
    }
}

impl<O: Order> Countable for Queue<O> {
    fn count(&self, to: Address) -> Result<usize, Fault> {
        check_address(to)?;
        Ok(self.row.count_for(to))
    }
}
