// Stores: rows by their keys.
#![tactic(auto)]

mod calls;
mod entries;
mod entry;
mod rows;
mod stores;
mod uses;
mod writing;

pub use entry::Key;
pub use rows::Store;
pub use stores::{EntryStore, Log, Table};
pub use uses::keep;
pub use writing::{Append, Overwrite};
