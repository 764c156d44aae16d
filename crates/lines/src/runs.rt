// Runs of bytes, and where they end.
ghost use Rattle.std.specs.Prelude.{◌≡◌, ℕ, ◌<◌, ◌≤◌, true, false, length, MatchOption, slice_index};
ghost use Rattle.lines.specs.Bytes.{in_class, separates, EveryFrom};
ghost use Rattle.lines.specs.Content.{Cut};

use crate::kinds::Class;

// The longest line, without its CR LF.
const LONGEST: usize = 75;

impl Class {
    fn has(self, byte: u8) -> bool
        ensures { result ≡ in_class self byte }
    {
        match self {
            Class::Naming => matches!(byte, b'A'..=b'Z' | b'0'..=b'9' | b'-'),
            Class::Printable => matches!(byte, b' '..=b'~'),
        }
    }

    // How many of these bytes a text begins with.
    fn front(self, text: &[u8]) -> usize
        ensures within { result ≤ length text.now }
        ensures all { (k : ℕ) → k < result → in_class self (slice_index text.now k) ≡ true }
        ensures ends { result < length text.now → in_class self (slice_index text.now result) ≡ false }
    {
        text.iter()
            .position(|byte| !self.has(*byte))
            .unwrap_or(text.len())
    }

    // The place where a run of these bytes ends that begins at `at`.
    fn run(self, text: &[u8], at: usize) -> usize
        requires { at ≤ length text.now }
        ensures within { (at ≤ result) × (result ≤ length text.now) }
        ensures all { EveryFrom (in_class self) text.now at result }
        ensures ends { result < length text.now → in_class self (slice_index text.now result) ≡ false }
    {
        at + self.front(&text[at..])
    }
}

fn is_separator(byte: u8) -> bool
    ensures { result ≡ separates byte }
{
    matches!(byte, b':' | b';')
}

// The places of the separator and of the CR of the content line that begins at `at`, if one does.
pub(crate) fn cut(text: &[u8], at: usize) -> Option<(usize, usize)>
    requires { at ≤ length text.now }
    ensures { MatchOption result ((colon end : ℕ) → Cut text.now at colon end → ⊥) (λ p. Cut text.now at p.0 p.1) }
{
    let colon = Class::Naming.run(text, at);
    let end = Class::Printable.run(text, colon);
    if colon == at || end - at > LONGEST || text.len() - end < 2 {
        return None;
    }
    if is_separator(text[colon]) && text[end] == b'\r' && text[end + 1] == b'\n' {
        return Some((colon, end));
    }
    None
}
