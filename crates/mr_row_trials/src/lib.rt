//! Tests of values and rows: assignment and order, the values of primary entries, and the entries of a row.
#![tactic(auto)]

#[cfg(test)]
mod columns;
#[cfg(test)]
mod entries;
#[cfg(test)]
mod tables;
#[cfg(test)]
mod values;
