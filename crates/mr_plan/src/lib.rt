//! Which index serves a condition, by which ranges of its keys, and whether it covers.
#![tactic(auto)]

mod choice;
mod columns;
mod conditions;
mod keys;
mod laws;
mod literals;
mod outline;
mod planning;
mod points;
mod tests_of;

pub use laws::{covering_is_reaching, first_columns_are_held, first_tests_are_met};
pub use mr_ranges::{Range, RangeList};
pub use outline::Plan;
pub use planning::plan;
pub use points::point;
