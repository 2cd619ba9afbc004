//! One cursor out of many whose lists follow one another.
#![tactic(auto)]

mod chain;

pub use chain::Chain;
