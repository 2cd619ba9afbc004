//! Tests of what the store is made of: versions in memory, blocks of a run, and records of the engine log.
#![tactic(auto)]

#[cfg(test)]
mod blocks;
#[cfg(test)]
mod records;
#[cfg(test)]
mod walks_of_memtables;
