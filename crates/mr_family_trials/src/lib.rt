//! Tests of a family over memory and runs, beside the steps that were made.
#![tactic(auto)]

#[cfg(test)]
mod families;
#[cfg(test)]
mod steps;
#[cfg(test)]
mod walks;
