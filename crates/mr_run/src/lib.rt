//! A script of statements, run on a folder.
#![tactic(auto)]

mod clocks;
mod part;
mod script;
mod shell;
mod top_call;

pub use top_call::{Report, run};
