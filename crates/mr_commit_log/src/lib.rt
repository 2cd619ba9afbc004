//! The binary log as a list of commits, and the output: what a server of statements does to its host.
#![tactic(auto)]

mod append;
mod emit;
mod ending;
mod read;

pub use append::append_all;
pub use emit::emit_all;
pub use ending::Ending;
pub use read::{Opened, open};
