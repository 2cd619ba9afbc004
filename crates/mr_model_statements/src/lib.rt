//! What statements on rows, transactions and sessions do to the plain program's engine, and their replies.
#![tactic(auto)]

mod row_steps;
mod session_steps;

pub use row_steps::{Writing, answered, select, write};
pub use session_steps::{begin, disconnect, release, roll_back_to, savepoint, session};
