// Plans: the fates of letters, read from digits.
ghost use Rattle.std.specs.Prelude.{◌≡◌, ◌<◌, vec_len};
ghost use Rattle.carrier.specs.Fates.{fate_at, ReadsFate, ReadsPlan};

use crate::kinds::{Fate, Plan};
use fault::{Cause, Fault, Layer, NotMade};
use std::alloc::Global;

// The fate that a digit names: how often a letter is posted.
impl TryFrom<u8> for Fate {
    type Error = Fault;

    ghost try_from_gives = { ReadsFate };

    fn try_from(digit: u8) -> Result<Fate, Fault> {
        match digit {
            b'0' => Ok(Fate::Lost),
            b'1' => Ok(Fate::Carried),
            b'2' => Ok(Fate::Doubled),
            _ => Err(Fault::new(Layer::Carrier, Cause::Range)),
        }
    }
}

impl Plan {
    // A plan of 1 to 64 digits `0`, `1` or `2`, whose memory is taken here.
    pub fn read(heap: Global, digits: &[u8]) -> Result<Plan, NotMade>
        ensures { ReadsPlan digits.now result }
    {
        if !(1..=64).contains(&digits.len()) {
            return Err(Fault::new(Layer::Carrier, Cause::Range).into());
        }
        let mut fates = Vec::with_capacity(heap, digits.len())?;
        // A loop, since a chain is no plainer: `collect` would take the memory digit by digit, and mix want of memory with a bad digit.
        for digit in digits {
            fates.push_reserved(Fate::try_from(*digit)?);
        }
        Ok(Plan { fates })
    }

    // The fate at a place of the plan.
    pub(crate) fn fate(&self, at: usize) -> Fate
        requires { at < vec_len self.now.fates }
        ensures { result ≡ fate_at self.now at }
    {
        self.fates[at]
    }
}
