//! Tests of run files: runs that are written on a host in memory, and read back.
#![tactic(auto)]

#[cfg(test)]
mod damage;
#[cfg(test)]
mod runs;
