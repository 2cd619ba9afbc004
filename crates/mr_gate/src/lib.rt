//! A log of records, each behind a gate that is opened once the record is on the disk.
#![tactic(auto)]

mod appending;
mod frame;
mod gate;
mod log_walk;
mod opening;
mod reading;
mod window;

pub use gate::GateLog;
pub use log_walk::LogWalk;
