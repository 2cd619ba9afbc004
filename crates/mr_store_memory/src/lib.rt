//! Families in memory beside what the files of a store say.
#![tactic(auto)]

mod naming;
mod readying;

pub use naming::{direction_of, family_in};
pub use readying::{learn_number, learn_others, make_ready};
