//! CREATE TABLE, and keys as statements write them, from their tokens.
#![tactic(auto)]

mod attributes;
mod keys;
mod options;
mod tables;

pub use keys::comment;
pub use tables::create_table;
