// Texts being written: each has room for a fixed number of bytes, and no memory is taken.
ghost use Rattle.std.specs.Prelude.{◌≡◌, ◌+◌, ◌≤◌, ◌++◌, length};
ghost use Rattle.std.specs.List.{flat_map};

use arrayvec::ArrayVec;

// No property has a longer text, from its separator on.
pub(crate) const WIDEST: usize = 64;

// The text of a property, from its separator on.
pub(crate) type Text = ArrayVec<u8, WIDEST>;

// Puts bytes behind what stands in a text.
pub(crate) fn put<const N: usize>(text: &mut ArrayVec<u8, N>, bytes: &[u8])
    requires { length text.old.items + length bytes.now ≤ N }
    ensures { text.new.items ≡ text.old.items ++ bytes.now }
{
    text.try_extend_from_slice(bytes).unwrap();
}

// Puts pieces behind what stands in a text, one behind another.
pub(crate) fn put_all<const N: usize>(text: &mut ArrayVec<u8, N>, pieces: &[&[u8]])
    requires { length text.old.items + length (flat_map (λ piece. piece.now) pieces.now) ≤ N }
    ensures { text.new.items ≡ text.old.items ++ flat_map (λ piece. piece.now) pieces.now }
{
    for piece in pieces {
        put(text, piece);
    }
}

// The text that pieces make, one behind another.
pub(crate) fn joined<const N: usize>(pieces: &[&[u8]]) -> ArrayVec<u8, N>
    requires { length (flat_map (λ piece. piece.now) pieces.now) ≤ N }
    ensures { result.items ≡ flat_map (λ piece. piece.now) pieces.now }
{
    let mut text = ArrayVec::new();
    put_all(&mut text, pieces);
    text
}
