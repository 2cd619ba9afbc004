//! Tests of SELECT over the rows of a list.
#![tactic(auto)]

#[cfg(test)]
mod selects;
#[cfg(test)]
mod statements;
#[cfg(test)]
mod tables;
