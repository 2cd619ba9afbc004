//! Look-ups in a run, through a cache of blocks.
#![tactic(auto)]

mod cut;
mod fetch;
mod lacking;
mod laws;
mod look_up;
mod newest;
mod one;
mod span;

pub use laws::runs_lie_without_gaps;
pub use look_up::get;
