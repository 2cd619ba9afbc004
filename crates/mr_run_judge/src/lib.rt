//! The live runs of a store, judged: the structure of each file, and whether runs of a level overlap.
#![tactic(auto)]

mod ends;
mod judge;
mod listing;
mod opening;
mod order;
mod overlapping_runs;
mod overlaps;
mod place;

pub use judge::judge_runs;
