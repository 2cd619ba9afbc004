//! Views in steps: a commit more, a session's own changes, the next hidden number, and rows that are
//! expired.
#![tactic(auto)]

mod commits;
mod expiry;
mod numbers;
mod sessions;

pub use commits::one_commit_more_folds_in;
pub use expiry::{expired_rows_may_be_gone, visible_later_was_visible};
pub use numbers::next_numbers_are_one_above;
pub use sessions::{rows_are_folded_from_changes, tables_are_folded_from_changes};
