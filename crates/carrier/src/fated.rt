// The fates layer: a carrier over any other, which loses and doubles letters by plan.
ghost use Rattle.std.specs.Prelude.{◌≡◌, ℕ, ◌+◌, ◌%◌, vec_len};
ghost use Rattle.carrier.specs.Mail.{letter};
ghost use Rattle.carrier.specs.Fates.{fate_at, fates_of, unfaithful, PostedAs, MovesOn};
ghost use Rattle.carrier.specs.declared.kinds.Fate.TheVariants.{Lost};
ghost use Rattle.carrier.specs.Posts.{Posted, Fetched, Counted};
ghost use Rattle.carrier.specs.Fating.{unfaithful_sound};

use crate::checks::check_letter;
use crate::kinds::{Address, Fate, Fates, Plan};
use crate::mail::{Carrier, Countable};
use fault::{Cause, Fault, Layer};

// Whether a carrier would take a letter.
fn check_post<C: Carrier>(below: &C, to: Address, text: &[u8]) -> Result<(), Fault>
    ensures { PostedAs Lost (letter to.number text.now) (C.mail below.now) (C.mail below.now) result }
{
    check_letter(to, text)?;
    if below.is_full() {
        return Err(Fault::new(Layer::Carrier, Cause::CarrierFull));
    }
    Ok(())
}

// Has a letter meet its fate.
fn post_as<C: Carrier>(below: &mut C, fate: Fate, to: Address, text: &[u8]) -> Result<(), Fault>
    ensures { PostedAs fate (letter to.number text.now) (C.mail below.old) (C.mail below.new) result }
{
    match fate {
        Fate::Lost => check_post(below, to, text),
        Fate::Carried => below.post(to, text),
        Fate::Doubled => {
            below.post(to, text)?;
            let _ = below.post(to, text);
            Ok(())
        }
    }
}

impl<C: Carrier> Fates<C> {
    // The layer over a carrier, at the start of its plan.
    pub fn new(below: C, plan: Plan) -> Fates<C>
        ensures { (result.below ≡ below) × (result.plan ≡ plan) × (result.next ≡ 0) }
    {
        Fates {
            below,
            plan,
            next: 0,
        }
    }
}

impl<C: Carrier> Carrier for Fates<C> {
    ghost mail = { λ f. unfaithful (C.Carrier.mail f.below) };

    ghost sound = { λ f. unfaithful_sound _ (C.Carrier.sound f.below) };

    fn post(&mut self, to: Address, text: &[u8]) -> Result<(), Fault>
        ensures posted { Posted (letter to.number text.now) (unfaithful (C.Carrier.mail self.old.below)) (unfaithful (C.Carrier.mail self.new.below)) result }
        ensures fated { PostedAs (fate_at self.old.plan self.old.next) (letter to.number text.now) (C.Carrier.mail self.old.below) (C.Carrier.mail self.new.below) result }
        ensures moves { MovesOn (vec_len self.old.plan.fates) self.old.next self.new.next result }
        ensures plan { fates_of self.new.plan ≡ fates_of self.old.plan }
    {
        let fate = self.plan.fate(self.next);
        post_as(&mut self.below, fate, to, text)?;
        self.next = (self.next + 1) % self.plan.fates.len();
        Ok(())
    }

    fn fetch(&mut self, to: Address, buffer: &mut [u8]) -> Result<usize, Fault>
        ensures fetched { Fetched to.number buffer.old buffer.new (unfaithful (C.Carrier.mail self.old.below)) (unfaithful (C.Carrier.mail self.new.below)) result }
        ensures below { Fetched to.number buffer.old buffer.new (C.Carrier.mail self.old.below) (C.Carrier.mail self.new.below) result }
        ensures same { (fates_of self.new.plan ≡ fates_of self.old.plan) × (self.new.next ≡ self.old.next) }
    {
        self.below.fetch(to, buffer)
    }

    fn is_full(&self) -> bool {
        self.below.is_full()
    }
}

impl<C: Countable> Countable for Fates<C> {
    fn count(&self, to: Address) -> Result<usize, Fault> {
        self.below.count(to)
    }
}
