//! A memtable that becomes a run.
#![tactic(auto)]

mod flushing;
mod laws;
mod writing;

pub use flushing::flush;
pub use laws::flushes_keep_families;
pub use writing::write_memtable;
