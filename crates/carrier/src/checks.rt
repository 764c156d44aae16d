// What every carrier tests before it takes or hands out a letter.
ghost use Rattle.std.specs.Prelude.{◌≡◌, ◌<◌, ◌≤◌, length, MatchResult};
ghost use Rattle.fault.specs.Numbers.{told};
ghost use Rattle.fault.specs.declared.kinds.Cause.TheVariants.{Range};
ghost use Rattle.fault.specs.declared.kinds.Layer.TheVariants.{Carrier};
ghost use Rattle.carrier.specs.Mail.{Fit, letter};
ghost use Rattle.carrier.specs.Posts.{NotAsked};

use crate::kinds::{Address, LONGEST};
use fault::{Cause, Fault, Layer};

// The highest address: the eighth door.
const LAST: u8 = 8;

// Whether there is such an address.
pub fn check_address(to: Address) -> Result<(), Fault>
    ensures { MatchResult result (λ _. to.number ≤ 8) (λ f. (f ≡ told Carrier Range) × (8 < to.number)) }
{
    if to.number > LAST {
        return Err(Fault::new(Layer::Carrier, Cause::Range));
    }
    Ok(())
}

// Whether a letter can be carried.
// Address and text stay two parameters, here and below, since a struct is no plainer: `Carrier::post` takes the two, and each function hands them on as they came.
pub fn check_letter(to: Address, text: &[u8]) -> Result<(), Fault>
    ensures { MatchResult result (λ _. Fit (letter to.number text.now)) (λ f. (f ≡ told Carrier Range) × (Fit (letter to.number text.now) → ⊥)) }
{
    check_address(to)?;
    if text.is_empty() || text.len() > LONGEST {
        return Err(Fault::new(Layer::Carrier, Cause::Range));
    }
    Ok(())
}

// Whether a buffer and an address can be fetched with.
pub fn check_fetch(to: Address, buffer: &[u8]) -> Result<(), Fault>
    ensures { MatchResult result (λ _. (768 ≤ length buffer.now) × (to.number ≤ 8)) (λ f. NotAsked to.number buffer.now f) }
{
    if buffer.len() < LONGEST {
        return Err(Fault::new(Layer::Carrier, Cause::Short));
    }
    check_address(to)
}
