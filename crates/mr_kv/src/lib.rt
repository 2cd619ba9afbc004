//! The ordered store: families of versions by sequence numbers over memory and runs, and batches that are whole or absent after a crash,
//! written at once or prepared until another log decides them.
#![tactic(auto)]

mod kv;
mod laws;

pub use kv::Kv;
pub use laws::{batches_are_in_their_families, what_files_say_is_one};
