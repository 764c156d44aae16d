// Ranks: which of two is newer, and keeping the newer, written once for every kind of thing that has a rank.
#![tactic(auto)]

ghost use Rattle.std.specs.Prelude.{◌≡◌, ℕ, ◌⊎◌, List, [], ◌∷◌, Decides};
ghost use Rattle.rank.specs.Order.{Newer, Kept};
ghost use Rattle.std.proofs.Common.{rules};

mod kinds;

pub use kinds::{AnswerRank, Revision, Sequence};

// A thing that has a rank. The laws say that the order is total and transitive, that it goes one way, and that ranks are equal when neither is newer.
pub trait Ranked {
    ghost rank: { Self → List ℕ };

    fn is_newer(&self, than: &Self) -> bool
        ensures { Decides result (Newer (rank self.now) (rank than.now)) };

    ghost transitive: { (a b c : Self) → Newer (rank a) (rank b) → Newer (rank b) (rank c) → Newer (rank a) (rank c) };

    ghost total: { (a b : Self) → (rank a ≡ rank b) ⊎ (Newer (rank a) (rank b) ⊎ Newer (rank b) (rank a)) };

    ghost oneway: { (a b : Self) → Newer (rank a) (rank b) → Newer (rank b) (rank a) → ⊥ };

    ghost level: { (a b : Self) → (Newer (rank a) (rank b) → ⊥) → (Newer (rank b) (rank a) → ⊥) → rank a ≡ rank b };
}

// Each of the two gives its own proof of each law and its own comparison, since both rest on its fields; the words are alike because both are found.
impl Ranked for Revision {
    ghost rank = { λ r. r.sequence.number ∷ (r.dtstamp.seconds ∷ []) };

    ghost transitive = { Prim.search rules };

    ghost total = { Prim.search rules };

    ghost oneway = { Prim.search rules };

    ghost level = { Prim.search rules };

    fn is_newer(&self, than: &Revision) -> bool {
        self > than
    }
}

impl Ranked for AnswerRank {
    ghost rank = { λ a. a.sequence.number ∷ (a.stamp.seconds ∷ (a.basis.seconds ∷ [])) };

    ghost transitive = { Prim.search rules };

    ghost total = { Prim.search rules };

    ghost oneway = { Prim.search rules };

    ghost level = { Prim.search rules };

    fn is_newer(&self, than: &AnswerRank) -> bool {
        self > than
    }
}

// The newer of the one that is held and the one that came; of two of equal rank, the one that is held.
pub fn keep_newer<T: Ranked + Drop>(held: T, came: T) -> T
    ensures { Kept T.rank held came result }
{
    if came.is_newer(&held) { came } else { held }
}
