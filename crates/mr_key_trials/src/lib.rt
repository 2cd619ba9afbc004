//! Tests of the codecs of keys: pieces, keys column by column, and unpack forms.
#![tactic(auto)]

#[cfg(test)]
mod keys;
#[cfg(test)]
mod pieces;
#[cfg(test)]
mod reading;
#[cfg(test)]
mod texts;
