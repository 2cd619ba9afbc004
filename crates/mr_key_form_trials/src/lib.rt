//! Tests of keys beside a definition: one that a text asks for, and one that is taken out.
#![tactic(auto)]

#[cfg(test)]
mod beside;
#[cfg(test)]
mod table;
#[cfg(test)]
mod taken;
