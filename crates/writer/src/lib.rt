// The writer of texts: a message record as its one house text.
#![tactic(auto)]

mod attendees;
mod numbers;
mod putting;
mod ranges;
mod stamps;
mod texts;
mod undoing;
mod values;

pub use texts::write;
pub use undoing::{reread, reread_value, rewrite, rewrite_value};
