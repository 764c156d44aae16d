// Letters for one address, among those of a row in the order in which they came.
ghost use Rattle.std.specs.Prelude.{◌≡◌, ℕ, ◌<◌};
ghost use Rattle.carrier.specs.Mail.{waiting_for};
ghost use Rattle.carrier.specs.Queues.{letters, Picks};

use crate::kinds::{Address, Row};

impl Row {
    // How many letters there are for an address.
    pub(crate) fn count_for(&self, to: Address) -> usize
        ensures { result ≡ waiting_for to.number (letters self.now) }
    {
        self.slots.iter().filter(|slot| slot.to == to).count()
    }

    // The place of the first letter for an address.
    pub(crate) fn first_for(&self, to: Address) -> Option<usize>
        ensures { Picks (λ k i. k < i) to.number (letters self.now) result }
    {
        self.slots.iter().position(|slot| slot.to == to)
    }

    // The place of the last letter for an address.
    pub(crate) fn last_for(&self, to: Address) -> Option<usize>
        ensures { Picks (λ k i. i < k) to.number (letters self.now) result }
    {
        self.slots.iter().rposition(|slot| slot.to == to)
    }
}
