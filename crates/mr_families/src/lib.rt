//! The families of a store by their numbers, and batches into them.
#![tactic(auto)]

mod adding;
mod families;
mod laws;
mod learning;
mod need;
mod numbered;
mod one;
mod places;
mod reading;
mod reserving;

pub use families::Families;
pub use laws::{
    added_are_newest, added_stay_in_views, batches_are_newest, families_by_number, few_reads,
    offences_are_their_files,
};
pub use need::Need;
pub use numbered::Numbered;
