//! That what is spelled is read: each statement has a spelling, and the grammar reads it back.
#![tactic(auto)]

mod texts;
mod tokens;

pub use texts::{each_statement_has_a_text, texts_are_read};
pub use tokens::spellings_are_read;
