//! Conditions bound to a table: places in the place of names, each literal converted once.
#![tactic(auto)]

mod binding;
mod columns;
mod names;

pub use binding::bind;
pub use columns::{is_unknown, kind_at, place_of};
pub use names::known_columns;
