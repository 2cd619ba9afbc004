//! SELECT over rows that are lent one after another, in whatever order they come.
#![tactic(auto)]

mod found;
mod gathering;
mod held;
mod lent;
mod list_rows;
mod listing;
mod orders;
mod selecting;
mod sorting;
mod source;
mod steps;
mod values;

pub use list_rows::{ListRows, are_fit};
pub use selecting::select;
pub use source::RowSource;
