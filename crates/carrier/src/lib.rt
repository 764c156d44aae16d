// Carriers: mail between the site and the doors, which may lose, double and reorder.
#![tactic(auto)]

mod checks;
mod fated;
mod finding;
mod kinds;
mod mail;
mod plans;
mod queues;
mod rows;
mod slots;
mod uses;

pub use kinds::{Address, Fate, Fates, Latest, Oldest, Plan, Queue};
pub use mail::{Carrier, Countable};
pub use queues::{Order, Ring, Stack};
pub use uses::echo;
