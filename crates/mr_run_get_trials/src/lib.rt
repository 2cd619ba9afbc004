//! Tests of look-ups in runs that are written on a host in memory.
#![tactic(auto)]

#[cfg(test)]
mod gets;
#[cfg(test)]
mod versions;
