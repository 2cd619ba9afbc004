//! Tokens of a statement's text, and the cutting of a script into statements. No call takes memory.
#![tactic(auto)]

mod blank;
mod bytes;
mod front;
mod lexer;
mod number;
mod pieces;
mod place;
mod quoted;
mod splitter;
mod token;

pub use lexer::Lexer;
pub use pieces::pieces_cut_alike;
pub use place::Split;
pub use splitter::Splitter;
pub use token::{BadToken, Token, TokenKind};
