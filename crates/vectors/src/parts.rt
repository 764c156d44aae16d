// Parts of texts, and texts made of parts.
use std::alloc::{AllocError, Global};
use std::str::from_utf8;

// What closes a line.
pub const CLOSE: &[u8] = b"\r\n";

// A line behind a text, with what closes it.
pub fn add_line(text: &mut Vec<u8>, line: &[u8]) -> Result<(), AllocError> {
    text.extend_from_slice(line)?;
    text.extend_from_slice(CLOSE)
}

// The text of these lines, as they stand.
pub fn text_of(heap: Global, lines: &[&str]) -> Result<Vec<u8>, AllocError> {
    let mut text = Vec::new(heap);
    for line in lines {
        add_line(&mut text, line.as_bytes())?;
    }
    Ok(text)
}

// The text of a line as a case writes it.
pub fn closed_line(heap: Global, line: &str) -> Result<Vec<u8>, AllocError> {
    let mut text = unescaped(heap, line)?;
    text.extend_from_slice(CLOSE)?;
    Ok(text)
}

// The text of these parts, one behind the other.
pub fn joined(heap: Global, parts: &[&[u8]]) -> Result<Vec<u8>, AllocError> {
    let mut text = Vec::new(heap);
    for part in parts {
        text.extend_from_slice(part)?;
    }
    Ok(text)
}

// A text in three parts: what stands before a line, the line with what closes it, and what stands after.
#[derive(Drop)]
pub struct Around<'a> {
    pub before: &'a [u8],
    pub line: &'a [u8],
    pub after: &'a [u8],
}

impl<'a> Around<'a> {
    // A text around its line n. A line goes on up to an LF; lines count from 1.
    pub fn of(text: &'a [u8], n: usize) -> Self {
        let from = start(text, n);
        let to = start(text, n.saturating_add(1));
        Around {
            before: cut(text, 0, from),
            line: cut(text, from, to),
            after: cut(text, to, text.len()),
        }
    }
}

// The place where line n begins, the text's end where it has no such line.
fn start(text: &[u8], n: usize) -> usize {
    if n <= 1 {
        return 0;
    }
    text.iter()
        .enumerate()
        .filter(|(_, byte)| **byte == b'\n')
        .nth(n - 2)
        .map_or(text.len(), |(at, _)| at.saturating_add(1))
}

// The bytes from one place up to another, none where there are no such places.
pub fn cut(bytes: &[u8], from: usize, to: usize) -> &[u8] {
    bytes.get(from..to).unwrap_or(b"")
}

// A line without the two bytes that close it.
pub fn bare(line: &[u8]) -> &[u8] {
    cut(line, 0, line.len().saturating_sub(2))
}

// The bytes of a line as a case writes it, where `\xHH` is the byte with these two hexadecimal digits.
pub fn unescaped(heap: Global, written: &str) -> Result<Vec<u8>, AllocError> {
    let mut bytes = Vec::new(heap);
    let mut pieces = written.split("\\x");
    bytes.extend_from_slice(pieces.next().unwrap_or("").as_bytes())?;
    for piece in pieces {
        let piece = piece.as_bytes();
        bytes.push(hexadecimal(cut(piece, 0, 2)))?;
        bytes.extend_from_slice(cut(piece, 2, piece.len()))?;
    }
    Ok(bytes)
}

// The byte with these hexadecimal digits, a question mark where they are none.
fn hexadecimal(digits: &[u8]) -> u8 {
    let digits = from_utf8(digits).unwrap_or("");
    u8::from_str_radix(digits, 16).unwrap_or(b'?')
}

// What stands before the first space and what stands after it: all and nothing where there is none.
pub fn first_word(text: &str) -> (&str, &str) {
    text.split_once(' ').unwrap_or((text, ""))
}

// A number in decimal, 0 where it is none. One line, in each table: what it says of a text is what `parse` says.
pub fn number(text: &str) -> usize {
    text.parse::<usize>().unwrap_or(0)
}
