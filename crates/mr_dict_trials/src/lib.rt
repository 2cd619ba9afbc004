//! Tests of the dictionary: entries as bytes, the dictionary in memory, and its loading from versions in memory.
#![tactic(auto)]

#[cfg(test)]
mod entries;
#[cfg(test)]
mod loading;
#[cfg(test)]
mod lookups;
