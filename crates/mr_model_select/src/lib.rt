//! The plain program's SELECT: the rows that a condition keeps, in order, within limits, and what is
//! shown of them. One call computes one definition of `mr_spec`, over lists.
#![tactic(auto)]

mod listing;
mod select;
mod sorting;

pub use select::{select_tests, selected};
