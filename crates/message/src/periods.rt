// The dates of a REQUEST.
ghost use Rattle.std.specs.Prelude.{◌≡◌, ◌<◌, [], ◌∷◌, ◌++◌, length, MatchResult};
ghost use Rattle.fault.specs.declared.kinds.Cause.TheVariants.{Dates};
ghost use Rattle.fault.specs.declared.kinds.Layer.TheVariants.{Engine};
ghost use Rattle.fault.specs.Numbers.{told};
ghost use Rattle.message.specs.Meaning.{further_of};

use crate::kinds::Periods;
use fault::{Cause, Fault, Layer};
use property::Period;
use stamp::Stamp;

// In the place of a date that is not there: an array has a value in each place.
pub(crate) const BLANK: Period = Period {
    start: Stamp { seconds: 0 },
    end: Stamp { seconds: 0 },
};

impl Periods {
    // One date alone.
    pub fn new(first: Period) -> Periods
        ensures first { result.first ≡ first }
        ensures further { further_of result ≡ [] }
    {
        Periods {
            first,
            count: 0,
            further: [BLANK; 5],
        }
    }

    // One date more. Refused, by the rule of dates: a seventh.
    pub fn push(&mut self, date: Period) -> Result<(), Fault>
        ensures first { self.new.first ≡ self.old.first }
        ensures further { MatchResult result (λ _. further_of self.new ≡ further_of self.old ++ (date ∷ [])) (λ f. (f ≡ told Engine Dates) × (length (further_of self.old) ≡ 5) × (further_of self.new ≡ further_of self.old)) }
    {
        let at = self.count;
        if at == 5 {
            return Err(Fault::new(Layer::Engine, Cause::Dates));
        }
        self.further[at] = date;
        self.count = at + 1;
        Ok(())
    }

    pub fn first(&self) -> Period
        ensures { result ≡ self.now.first }
    {
        self.first
    }

    // The dates after the first, in their order.
    pub fn further(&self) -> &[Period]
        ensures { result.now ≡ further_of self.now }
    {
        &self.further[0..self.count]
    }
}
