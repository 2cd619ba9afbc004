//! Families that are filled with what the files of a store say: live runs that are opened, and batches that count.
#![tactic(auto)]

mod adding;
mod laws;
mod opening;

pub use adding::add_batches;
pub use laws::filled_families_are_held;
pub use opening::open_runs;
