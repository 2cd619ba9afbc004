//! The changes that the plain program's INSERT, REPLACE, UPDATE and DELETE make, or their first
//! refusal. One call computes one definition of `mr_spec`, over lists.
#![tactic(auto)]

mod changes;
mod inserting;
mod new_rows;
mod scene;
mod set_checks;
mod setting;
mod steps;
mod sums;
mod tuples;
mod updating;
mod written;

pub use changes::{delete_changes, insert_changes, insert_one, replace_changes, update_changes};
pub use scene::{Failed, Scene};
pub use written::{Written, left_of_progress};
