//! The outside in memory: a host that keeps a record of its calls and can crash, a source and a clock.
#![tactic(auto)]

mod choice;
mod clock;
mod counts;
mod crash;
mod disk;
mod file_map;
mod host;
mod image;
mod journal;
mod mem_file;
mod source;
mod step;

pub use choice::Choice;
pub use clock::ListClock;
pub use host::MemHost;
pub use source::MemSource;
