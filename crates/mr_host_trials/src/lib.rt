//! Tests of the host in memory, and of a host that tells nothing and fails at each call.
#![tactic(auto)]

#[cfg(test)]
mod broken;
#[cfg(test)]
mod hosts;
