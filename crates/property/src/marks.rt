// Fixed bytes in a text.
ghost use Rattle.std.specs.Prelude.{◌≡◌, ℕ, List, ◌++◌, Decides, MatchOption, ◌≢◌};

// What follows a mark at the front of a text, or none where the text does not begin with it.
pub(crate) fn strip<'a>(text: &'a [u8], mark: &[u8]) -> Option<&'a [u8]>
    ensures { MatchOption result ((rest : List ℕ) → text.now ≢ mark.now ++ rest) (λ rest. text.now ≡ mark.now ++ rest.now) }
{
    text.strip_prefix(mark)
}

// Whether a text is these bytes. By `==` alone the proof of a meeting's `read` did not close.
pub(crate) fn is(text: &[u8], bytes: &[u8]) -> bool
    ensures { Decides result (text.now ≡ bytes.now) }
{
    *text == *bytes
}
