//! Tests of the ends of ranges, and of entries that are read where they lie.
#![tactic(auto)]

#[cfg(test)]
mod ends;
#[cfg(test)]
mod entries;
#[cfg(test)]
mod tables;
