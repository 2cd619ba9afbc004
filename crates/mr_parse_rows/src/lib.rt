//! Statements on rows, from their tokens.
#![tactic(auto)]

mod conditions;
mod query;
mod rows;

pub use query::select;
pub use rows::{delete, insert, update};
