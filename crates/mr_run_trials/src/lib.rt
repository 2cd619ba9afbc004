//! Whole runs of the program over a folder in memory: scripts with their replies, folders reopened, words, and causes of an early end.
#![tactic(auto)]

#[cfg(test)]
mod folders;
#[cfg(test)]
mod limits;
#[cfg(test)]
mod rows;
#[cfg(test)]
mod running;
#[cfg(test)]
mod scripts;
#[cfg(test)]
mod sources;
#[cfg(test)]
mod words;
