//! Definitions of tables: the checks that a text must pass to give one, in their order, and the bytes
//! of a definition.
#![tactic(auto)]

mod column_read;
mod columns;
mod definition;
mod definition_read;
mod definition_write;
mod keys;
mod laws;
mod names;
mod options;

pub use definition::{check, check_key, check_key_beside};
pub use definition_read::{definition_at, key_at, read_def};
pub use definition_write::{write_def, write_definition, write_key};
pub use laws::{checked_definitions_fit, rows_of_tables_fit};
pub use names::{is_same_name, place_in};
pub use options::CommentOptions;
