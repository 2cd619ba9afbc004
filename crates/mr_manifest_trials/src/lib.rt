//! Tests of the manifest on a host in memory: its bytes, what is live, and how it goes through damage, crashes and limits.
#![tactic(auto)]

#[cfg(test)]
mod crashes;
#[cfg(test)]
mod damage;
#[cfg(test)]
mod edits;
#[cfg(test)]
mod files;
#[cfg(test)]
mod limits;
