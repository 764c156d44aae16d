// What the tables of cases say in the same words: what a call answered, and how much of a buffer it left.
#![tactic(auto)]

ghost use Rattle.std.specs.Prelude.{Ok, Err};

mod buffers;

pub use buffers::{Copied, trailing_dots};
use std::fmt;

// What a call answered, as a line of a table ends with it: the value, or why there is none.
#[derive(Clone, Copy, Debug)]
pub struct Outcome<T, E> {
    pub result: Result<T, E>,
}

impl<T: fmt::Display, E: fmt::Display> fmt::Display for Outcome<T, E> {
    ghost output = { λ a. elim a.result [ Ok value ↦ T.output value | Err error ↦ E.output error ] };

    fn fmt<W: fmt::Write>(&self, f: &mut fmt::Formatter<W>) -> fmt::Result {
        match &self.result {
            Ok(value) => write!(f, "{value}"),
            Err(error) => write!(f, "{error}"),
        }
    }
}
