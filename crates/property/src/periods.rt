// Stamps inside a text, and the two stamps of a period.
ghost use Rattle.std.specs.Prelude.{◌≡◌, ℕ, List, ◌++◌, MatchOption, ◌≢◌};
ghost use Rattle.stamp.specs.Stamps.{Stamped};
ghost use Rattle.property.specs.Values.{PeriodText};

use crate::codecs::{Text, after};
use crate::kinds::Period;
use stamp::Stamp;

// The stamp at the front of a text, and what follows it, or none where no stamp stands there.
pub(crate) fn read_front(text: &[u8]) -> Option<(Stamp, &[u8])>
    ensures { MatchOption result ((n : ℕ) (at rest : List ℕ) → Stamped n at → text.now ≢ at ++ rest) (λ p. (at : List ℕ) × Stamped p.0.seconds at × (text.now ≡ at ++ p.1.now)) }
{
    let (front, rest) = text.split_at_checked(16)?;
    let stamp = Stamp::read(front)?;
    Some((stamp, rest))
}

impl Text for Period {
    ghost says = { PeriodText };

    // The period that a text writes, or none.
    fn read(text: &[u8]) -> Option<Period> {
        let (start, rest) = read_front(text)?;
        let end: Stamp = after(b"/", rest)?;
        Some(Period { start, end })
    }
}
