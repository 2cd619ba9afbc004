//! The live runs of a family, by level: opened, looked up, and told.
#![tactic(auto)]

mod laws;
mod levels;
mod look_up;
mod opening;
mod placing;
mod spans;

pub use laws::{levels_are_their_files, look_ups_leave_warm, whole_levels_are_sorted};
pub use levels::Levels;
pub use look_up::later_of;
