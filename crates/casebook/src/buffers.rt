// What a buffer holds after a call that copies into it.
ghost use Rattle.std.specs.Prelude.{◌≡◌, Some, None, Ok, Err, Option, option_map};
ghost use Rattle.casebook.specs.Buffers.{legible, front, dots, copied_text, refused_text};

use std::fmt;
use std::str::from_utf8;

// How many dots a buffer ends with. A table's buffers are all dots before a call.
pub fn trailing_dots(buffer: &[u8]) -> usize
    ensures { result ≡ dots buffer.now }
{
    buffer
        .iter()
        .rev()
        .take_while(|byte| **byte == b'.')
        .count()
}

// At most 20 of so many bytes at a buffer's front, and `?` where it has not as many.
fn front(buffer: &[u8], length: usize) -> &[u8]
    ensures { result.now ≡ front buffer.now length }
{
    buffer.get(0..length.min(20)).unwrap_or(b"?")
}

// Bytes as text, and `?` where they are none.
fn legible(bytes: &[u8]) -> &str
    ensures { result.now ≡ legible bytes.now }
{
    from_utf8(bytes).unwrap_or("?")
}

// What a call answered that copies into a buffer, and what the buffer then holds.
#[derive(Clone, Copy, Debug)]
pub struct Copied<'a, E> {
    pub result: Result<usize, E>,
    pub buffer: &'a [u8],
}

impl<'a, E: fmt::Display> fmt::Display for Copied<'a, E> {
    ghost output = { λ c. elim c.result [ Ok n ↦ Some (copied_text c.buffer.now n) | Err error ↦ option_map (refused_text c.buffer.now) (E.output error) ] };

    fn fmt<W: fmt::Write>(&self, f: &mut fmt::Formatter<W>) -> fmt::Result {
        let dots = trailing_dots(self.buffer);
        match &self.result {
            Ok(length) => {
                let text = legible(front(self.buffer, *length));
                write!(f, "{length} bytes, {text}, then {dots} dots")
            }
            Err(error) => write!(f, "{error}, {dots} dots"),
        }
    }
}
