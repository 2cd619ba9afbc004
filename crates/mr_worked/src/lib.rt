//! Tests of the plain program: scripts, each with its replies.
#![tactic(auto)]

#[cfg(test)]
mod replies;
#[cfg(test)]
mod scripts;
