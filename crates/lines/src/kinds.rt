// A text, and a line of it.
ghost use Rattle.std.specs.Prelude.{◌≤◌, length};

// The bytes that a run is made of: those of a name, or all that may stand in a line.
// An enum and no closure that tests a byte: what the closure says of each byte would have to be said again by a function for each class.
#[derive(Clone, Copy)]
pub enum Class {
    Naming,
    Printable,
}

// One content line: its number from 1 on, its name before the separator (a colon or a semicolon) and its value behind it, both parts of the text that was read, with their places in it.
// `text` is the part from the separator on, so that it begins with it.
#[derive(Clone, Copy)]
pub struct Line<'a> {
    pub number: u32,
    pub name_at: usize,
    pub name: &'a [u8],
    pub value_at: usize,
    pub value: &'a [u8],
    pub text: &'a [u8],
}

// What is left of a text, to be read line by line: the place of the next line, and how many lines came before it.
#[derive(Clone, Copy)]
pub struct Lines<'a> {
    pub(crate) text: &'a [u8],
    pub(crate) at: usize,
    pub(crate) number: u32,
    ghost within: { at ≤ length text.now },
    ghost few: { number ≤ at },
    ghost small: { number ≤ 768 },
}
