//! A cache of blocks.
#![tactic(auto)]

mod cache;
mod laws;
mod span;

pub use cache::BlockCache;
pub use laws::{caches_stay_true, fronts_are_held};
pub use span::FileSpan;
