// Titles: up to 40 bytes that may stand in one.
ghost use Rattle.std.specs.Prelude.{◌≡◌, ℕ, ◌-◌, ◌<◌, ◌≤◌, true, [], ◌++◌, length, replicate, Decides, MatchOption, slice_index};
ghost use Rattle.property.specs.Bytes.{title_byte};
ghost use Rattle.property.specs.Values.{TitleText, title_text};

use crate::codecs::Text;
use crate::kinds::Title;

impl Title {
    // The title that stands for none.
    pub fn none() -> Title
        ensures { title_text result ≡ [] }
    {
        Title {
            len: 0,
            bytes: [0; 40],
        }
    }

    // Whether this stands for no title.
    pub fn is_empty(&self) -> bool
        ensures { Decides result (title_text self.now ≡ []) }
    {
        self.len == 0
    }

    // The bytes of this title.
    pub fn as_bytes(&self) -> &[u8]
        ensures { result.now ≡ title_text self.now }
    {
        &self.bytes[..self.len]
    }

    // The title of these bytes, or none where they are no title. What is not used stays 0.
    pub fn read(text: &[u8]) -> Option<Title>
        ensures { MatchOption result (TitleText text.now → ⊥) (λ t. TitleText text.now × (title_text t ≡ text.now) × (t.bytes ≡ text.now ++ replicate (40 - length text.now) 0)) }
    {
        let len = text.len();
        if !(1..=40).contains(&len) || !text.iter().all(|byte| fits(*byte)) {
            return None;
        }
        Some(Title {
            len,
            bytes: padded(text),
        })
    }
}

impl Text for Title {
    ghost says = { λ t text. TitleText text × (text ≡ title_text t) };

    fn read(text: &[u8]) -> Option<Title> {
        Title::read(text)
    }
}

// These bytes, and 0 in the places that are left.
fn padded(text: &[u8]) -> [u8; 40]
    requires { length text.now ≤ 40 }
    ensures { result ≡ text.now ++ replicate (40 - length text.now) 0 }
{
    let mut bytes = [0; 40];
    bytes[..text.len()].copy_from_slice(text);
    bytes
}

fn fits(byte: u8) -> bool
    ensures { result ≡ title_byte byte }
{
    match byte {
        b'"' | b',' | b';' | b'\\' => false,
        _ => (b' '..=b'~').contains(&byte),
    }
}
