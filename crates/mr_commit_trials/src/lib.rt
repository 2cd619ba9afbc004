//! Tests of the binary log: commits as the bytes of its bodies, and logs of them on a host in memory.
#![tactic(auto)]

#[cfg(test)]
mod bodies;
#[cfg(test)]
mod commits;
