// Edits of a text. Lines count from 1 and go on up to an LF; N may be one past the last where a line is put in.
//
// set N LINE         line N becomes LINE
// put N LINE         LINE is put in before line N
// many N COUNT LINE  LINE is put in COUNT times before line N
// cut N              line N is taken out
// twice N            line N stands twice
// swap N             line N and the next are exchanged
// stop N             what follows line N is taken out
// close N BYTES      BYTES stand where CR LF closed line N
// pad N COUNT        line N gets COUNT bytes `x` at its end
// byte N K VALUE     byte K of line N becomes VALUE, in decimal
// fill N TOTAL       lines `X-PAD:x..` are put in before line N, so that the text has TOTAL bytes
// again              the text stands twice
//
// In LINE and BYTES, `\xHH` is the byte with these two hexadecimal digits.
use crate::parts::{
    Around, CLOSE, add_line, bare, closed_line, cut, first_word, joined, number, unescaped,
};
use std::alloc::{AllocError, Global};

// The text after an edit, or none where there is no such edit.
pub fn edited(heap: Global, text: &[u8], edit: &str) -> Result<Option<Vec<u8>>, AllocError> {
    let (word, rest) = first_word(edit);
    let (n, rest) = first_word(rest);
    let around = Around::of(text, number(n));
    let missing = number(rest).saturating_sub(text.len());
    let made = match word {
        "set" => around.set(heap, closed_line(heap, rest)?.as_slice()),
        "put" => around.put(heap, closed_line(heap, rest)?.as_slice()),
        "many" => around.put(heap, many(heap, rest)?.as_slice()),
        "fill" => around.put(heap, fill(heap, missing)?.as_slice()),
        "cut" => around.set(heap, b""),
        "stop" => around.stop(heap),
        "twice" => around.put(heap, around.line),
        "swap" => around.swap(heap),
        "close" => around.close(heap, unescaped(heap, rest)?.as_slice()),
        "pad" => around.pad(heap, number(rest)),
        "byte" => around.byte(heap, rest),
        "again" => joined(heap, &[text, text]),
        _ => return Ok(None),
    };
    Ok(Some(made?))
}

// `COUNT LINE`: so many such lines.
fn many(heap: Global, rest: &str) -> Result<Vec<u8>, AllocError> {
    let (count, line) = first_word(rest);
    let line = closed_line(heap, line)?;
    let mut made = Vec::new(heap);
    for _ in 0..number(count) {
        made.extend_from_slice(line.as_slice())?;
    }
    Ok(made)
}

// Lines `X-PAD:x..` that have so many bytes in all, none where these are fewer than 8. Each has 8 to 77 bytes with what closes it.
fn fill(heap: Global, mut missing: usize) -> Result<Vec<u8>, AllocError> {
    let mut made = Vec::new(heap);
    while missing >= 8 {
        let size = if missing <= 77 {
            missing
        } else {
            (missing - 8).min(77)
        };
        made.extend_from_slice(b"X-PAD:")?;
        add_line(&mut made, vec![in heap; b'x'; size - 8]?.as_slice())?;
        missing -= size;
    }
    Ok(made)
}

// Each edit makes a new text.
impl Around<'_> {
    // Other bytes in the line's place.
    fn set(&self, heap: Global, bytes: &[u8]) -> Result<Vec<u8>, AllocError> {
        joined(heap, &[self.before, bytes, self.after])
    }

    // Lines put in before the line.
    fn put(&self, heap: Global, lines: &[u8]) -> Result<Vec<u8>, AllocError> {
        joined(heap, &[self.before, lines, self.line, self.after])
    }

    // Nothing after the line.
    fn stop(&self, heap: Global) -> Result<Vec<u8>, AllocError> {
        joined(heap, &[self.before, self.line])
    }

    // The line and the next exchanged.
    fn swap(&self, heap: Global) -> Result<Vec<u8>, AllocError> {
        let next = Around::of(self.after, 1);
        joined(heap, &[self.before, next.line, self.line, next.after])
    }

    // The line closed by other bytes.
    fn close(&self, heap: Global, bytes: &[u8]) -> Result<Vec<u8>, AllocError> {
        joined(heap, &[self.before, bare(self.line), bytes, self.after])
    }

    // The line with so many bytes `x` at its end.
    fn pad(&self, heap: Global, count: usize) -> Result<Vec<u8>, AllocError> {
        let mut end = vec![in heap; b'x'; count]?;
        end.extend_from_slice(CLOSE)?;
        self.close(heap, end.as_slice())
    }

    // `K VALUE`: the line with another byte at place K, counted from 1.
    fn byte(&self, heap: Global, rest: &str) -> Result<Vec<u8>, AllocError> {
        let (k, value) = first_word(rest);
        let k = number(k);
        let value = [value.parse::<u8>().unwrap_or(b'?')];
        let front = cut(self.line, 0, k.saturating_sub(1));
        let back = cut(self.line, k, self.line.len());
        joined(heap, &[self.before, front, &value, back, self.after])
    }
}
