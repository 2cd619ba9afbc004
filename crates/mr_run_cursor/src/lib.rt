//! A cursor over a run.
#![tactic(auto)]

mod blocks;
mod cursor;

pub use cursor::PinnedCursor;
