//! Tests of plans: conditions with their indexes, and the rows in their ranges.
#![tactic(auto)]

#[cfg(test)]
mod conditions;
#[cfg(test)]
mod table;
