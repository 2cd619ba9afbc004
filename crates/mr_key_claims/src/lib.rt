//! Claims of changes as values: lists of them, and the last commit of each, answer what the
//! definitions ask of changes and commits where they judge 1205 and 1213.
#![tactic(auto)]

mod changed;
mod shared;
mod values;

pub use changed::changed_since_is_by_last_commits;
pub use shared::{
    changes_share_by_their_claims, held_claims_are_of_one_list, rows_clash_by_their_claims,
};
pub use values::{claims_are_told_apart, primary_keys_are_claims, same_values_have_one_form};
