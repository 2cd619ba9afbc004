//! Which runs of a family are merged, and their merge.
#![tactic(auto)]

mod choosing;
mod laws;
mod merging;
mod span;

pub use choosing::pick;
pub use laws::{
    kept_are_in_order, keys_in_one_run, newest_beside_others, newest_of_kept, runs_have_all,
    views_of_kept,
};
pub use merging::{RunList, merge_runs};
pub use span::{FileList, Pick, Span, SpanList};
