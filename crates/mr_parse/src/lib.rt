//! Statements from their texts.
#![tactic(auto)]

mod parse;
mod sessions;
mod statements;

pub use parse::parse_statement;
