//! Reading what a store's files say: its manifest, the manifest's first record, and the live engine log.
#![tactic(auto)]

mod first_record;
mod log;
mod reading;

pub use reading::{Reading, read_said};
