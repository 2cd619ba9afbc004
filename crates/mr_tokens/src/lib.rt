//! A reader of the tokens of a statement, and what each phrase is made of: words, names, literals.
#![tactic(auto)]

mod literals;
mod name_list;
mod quoted;
mod tokens;
mod unread;
mod words;

pub use literals::{any_number, literal};
pub use name_list::{names, names_in};
pub use tokens::Tokens;
pub use unread::Unread;
