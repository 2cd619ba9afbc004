//! The entries of the dictionary: what the store knows of tables, indexes, families and commits, as
//! keys and values of the family `__system__`, and back.
#![tactic(auto)]

mod entry;
mod laws;
mod numbers;
mod read;
mod table;
mod write;

pub use entry::{DictEntry, NumberList};
pub use laws::small_numbers_read_back;
pub use read::read_entry;
pub use write::{key_of_entry, write_entry};
