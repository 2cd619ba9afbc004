//! What a run more makes of a family's runs.
#![tactic(auto)]

mod laws;

pub use laws::{caches_stay_true_to_runs, runs_without_gaps_stay_so, whole_levels_stay_whole};
