//! Tests of claims and of expiry.
#![tactic(auto)]

#[cfg(test)]
mod claims;
#[cfg(test)]
mod expiry;
