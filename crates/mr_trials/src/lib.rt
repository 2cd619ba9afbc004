//! Tests that cross crates: logs of records on a host in memory, through stops, crashes and damage.
#![tactic(auto)]

#[cfg(test)]
mod costs;
#[cfg(test)]
mod crashes;
#[cfg(test)]
mod damage;
#[cfg(test)]
mod limits;
#[cfg(test)]
mod logs;
