//! One meaning of a table's rows: those that lawful commits may write are those that have entries.
#![tactic(auto)]

mod definitions;
mod rows;

pub use definitions::{checked_definitions_have_stamp_columns, lawful_tables_have_stamp_columns};
pub use rows::{rows_are_one, rows_with_entries_are_lawful};
