//! Tests of the words of both programs' command lines.
#![tactic(auto)]

#[cfg(test)]
mod moments;
#[cfg(test)]
mod words;
