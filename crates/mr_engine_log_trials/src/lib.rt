//! Tests of engine logs: of their reading, and of scripts of their calls through stops and crashes.
#![tactic(auto)]

#[cfg(test)]
mod beside;
#[cfg(test)]
mod logs;
#[cfg(test)]
mod numbers;
#[cfg(test)]
mod reopened;
#[cfg(test)]
mod scripts;
#[cfg(test)]
mod steps;
#[cfg(test)]
mod stops;
