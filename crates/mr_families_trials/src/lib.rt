//! Tests of families in memory, beside a plain list of the steps that were made.
#![tactic(auto)]

#[cfg(test)]
mod filling;
#[cfg(test)]
mod learning;
#[cfg(test)]
mod looks;
#[cfg(test)]
mod steps;
#[cfg(test)]
mod walks;
