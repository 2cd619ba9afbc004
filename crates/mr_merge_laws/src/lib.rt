//! What a merge of some of a family's runs makes of its views. It stands apart from the merge itself, so that a law more doesn't check
//! anew all that stands on that.
#![tactic(auto)]

mod laws;

pub use laws::{newest_after_a_merge, newest_in_parts_of_two_kinds, views_after_a_merge};
