//! Runs of the program that are stopped at each call of the host, or in which one call fails, with a crash and a reopening behind each.
#![tactic(auto)]

#[cfg(test)]
mod cases;
#[cfg(test)]
mod crashes;
#[cfg(test)]
mod running;
