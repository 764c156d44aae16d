// Numbers below 10,000 as decimal digits.
ghost use Rattle.std.specs.Prelude.{◌≡◌, ℕ, ◌≤◌, [], ◌∷◌, MatchOption, ◌≢◌};
ghost use Rattle.property.specs.Bytes.{four};

use stamp::read_two;

// The number that four digits write, or none where a byte is no digit.
pub(crate) fn read_four(a: u8, b: u8, c: u8, d: u8) -> Option<u16>
    ensures { MatchOption result ((n : ℕ) → n ≤ 9999 → a ∷ (b ∷ (c ∷ (d ∷ []))) ≢ four n) (λ n. (n ≤ 9999) × (a ∷ (b ∷ (c ∷ (d ∷ []))) ≡ four n)) }
{
    let hundreds = read_two(a, b)?;
    let rest = read_two(c, d)?;
    Some((100 * hundreds + rest) as u16)
}
