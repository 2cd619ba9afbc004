//! The dictionary: the entries of the family `__system__` in memory, by their keys, and how they are
//! loaded from a cursor.
#![tactic(auto)]

mod dict;
mod keys;
mod laws;
mod loading;
mod lookups;
mod passed;
mod places;
mod scan;

pub use dict::Dict;
pub use laws::{newest_puts_are_views, put_is_found, removed_is_gone};
pub use loading::load;
pub use mr_dict_entry::{DictEntry, NumberList, key_of_entry, read_entry, write_entry};
