//! Laws above the format of runs, for callers to cite and readers to judge the format by. They stand apart from it so that a law more
//! doesn't check anew all that stands on the format.
#![tactic(auto)]

mod laws;

pub use laws::runs_are_as_they_are_written;
