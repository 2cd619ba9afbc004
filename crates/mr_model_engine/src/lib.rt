//! The plain program's engine: commits and what they make of tables, sessions and what they see,
//! building indexes, hidden numbers and the moment.
#![tactic(auto)]

mod engine;
mod numbers;
mod reopening;
mod seen;
mod views;

pub use engine::{Building, Engine, NextNumber, fresh_session};
pub use seen::{changed_later, changes_of_txn, held_elsewhere, is_stale, keep_view, rows_seen};
pub use views::{building_of, committed_table, number_of, table_in, used_elsewhere};
