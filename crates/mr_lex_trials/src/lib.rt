//! Tests of the lexer and of the cutting of scripts, by tables of texts.
#![tactic(auto)]

#[cfg(test)]
mod tables;
