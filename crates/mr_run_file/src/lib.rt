//! Run files: sorted lists of versions on a disk.
#![tactic(auto)]

mod laws;

pub use laws::{run_files_have_one_list, runs_have_one_list, written_runs_are_read};
