// What has a text of its own, and such a text after a mark.
ghost use Rattle.std.specs.Prelude.{◌≡◌, ℕ, List, MatchOption};
ghost use Rattle.stamp.specs.Stamps.{Stamped};
ghost use Rattle.property.specs.Values.{After};

use crate::marks::strip;
use stamp::Stamp;

// A kind of value that has a text: which texts are a value's, and the value that a text writes.
pub(crate) trait Text {
    ghost says: { Self → List ℕ → Type 0 };

    // The value that a text writes, or none. No `TryFrom`: which property was wanted, and so what to tell, only the reader of lines knows.
    fn read(text: &[u8]) -> Option<Self>
        ensures { MatchOption result ((v : Self) → says v text.now → ⊥) (λ v. says v text.now) };
}

impl Text for Stamp {
    ghost says = { λ s. Stamped s.seconds };

    fn read(text: &[u8]) -> Option<Stamp> {
        Stamp::read(text)
    }
}

// The value whose text stands after a mark, or none.
pub(crate) fn after<T: Text>(mark: &[u8], text: &[u8]) -> Option<T>
    ensures { MatchOption result ((v : T) → After mark.now (T.says v) text.now → ⊥) (λ v. After mark.now (T.says v) text.now) }
{
    T::read(strip(text, mark)?)
}
