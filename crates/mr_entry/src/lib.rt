//! The entries of a row in all keys of its table, and rows from entries.
//!
//! The key of an entry has the columns of its index; behind those of a secondary key stand the
//! columns of the primary key that aren't among them, or the hidden number. The value of a
//! primary entry is the row's value. That of a secondary entry is the stamp, where the table has
//! a TTL, and the unpack form of each text of its key, in key order.
#![tactic(auto)]

mod entries;
mod entry_ref;
mod laws;
mod places;
mod primary;
mod rows;

pub use entries::entries_of;
pub use entry_ref::{EntryRef, primary_key_of_entry};
pub use laws::{entries_are_held, entries_come_back, entries_lead_to_rows, only_entries_are_read};
pub use places::{covers, places_of};
pub use rows::row_of_entry;
