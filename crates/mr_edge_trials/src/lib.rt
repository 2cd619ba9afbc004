//! Tests of the edge on real folders.
#![tactic(auto)]

#[cfg(test)]
mod folders;
