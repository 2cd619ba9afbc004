//! What statements on the definitions of tables and indexes do to the plain program's engine, and their
//! replies.
#![tactic(auto)]

mod index_steps;
mod schema_steps;

pub use index_steps::{begin_index, cancel_index, create_index, drop_index, finish_index};
pub use schema_steps::{create_table, drop_table, lock_tables};
