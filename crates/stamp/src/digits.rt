// Numbers as two decimal digits, of which stamps and the numbers of texts are made.
ghost use Rattle.std.specs.Prelude.{◌≡◌, ℕ, ◌%◌, ◌<◌, [], ◌∷◌, MatchOption, ◌≢◌};
ghost use Rattle.stamp.specs.Calendar.{two};

// The number that two digits write, or none where a byte is no digit.
pub fn read_two(tens: u8, ones: u8) -> Option<u32>
    ensures { MatchOption result ((n : ℕ) → n < 100 → tens ∷ (ones ∷ []) ≢ two n) (λ n. (n < 100) × (tens ∷ (ones ∷ []) ≡ two n)) }
{
    match (tens, ones) {
        (b'0'..=b'9', b'0'..=b'9') => Some(10 * u32::from(tens - b'0') + u32::from(ones - b'0')),
        _ => None,
    }
}

// The last two digits of a number.
pub fn write_two(n: u32) -> [u8; 2]
    ensures { result ≡ two (n % 100) }
{
    [b'0' + (n / 10 % 10) as u8, b'0' + (n % 10) as u8]
}
