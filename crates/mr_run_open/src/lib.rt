//! Runs that are opened: their structure is judged, and each block when it is read.
#![tactic(auto)]

mod fields;
mod footer;
mod index;
mod judge;
mod laws;
mod run;
mod search;
mod structure;

pub use laws::{keys_stand_in_their_blocks, runs_are_their_blocks};
pub use run::{BlockSpan, Run};
