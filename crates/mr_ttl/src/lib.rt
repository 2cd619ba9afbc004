//! When an entry is expired, and the filter by which a compaction drops entries.
#![tactic(auto)]

mod duration;
mod expiry;
mod filter;
mod fronts;
mod lookups;

pub use duration::{Duration, DurationList, NumberList};
pub use expiry::expired;
pub use filter::TtlFilter;
