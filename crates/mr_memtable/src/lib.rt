//! Versions in memory, in order: what was written and isn't in a run yet.
#![tactic(auto)]

mod chunk;
mod chunks;
mod cursor;
mod memtable;
mod piece;
mod search;
mod slot;
mod spare;
mod table;
mod version;

pub use cursor::MemCursor;
pub use memtable::Memtable;
pub use version::VersionRef;
