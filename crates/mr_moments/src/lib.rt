//! Where a run has its moments from, as the words of the command line say: `--now=SECONDS`,
//! `--clock=SECONDS,SECONDS,..`, or no word.
#![tactic(auto)]

mod choice;
mod command;
mod seconds;
mod source;

pub use choice::moments_of;
pub use source::Moments;
