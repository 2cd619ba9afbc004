//! Laws above the definitions of `mr_spec`, one function a law, for callers to cite and readers to
//! judge the definitions by. They stand apart from these so that a law more doesn't check anew all
//! that stands on the definitions.
#![tactic(auto)]

mod keys;
mod refusals;
mod snapshots;

pub use keys::{keys_collide_by_values_alone, sessions_see_the_replay};
pub use refusals::{refusals_leave_by_their_codes, unread_texts_move_the_moment_alone};
pub use snapshots::{
    other_sessions_stay, sessions_are_parked, snapshots_stay_fixed, snapshots_stay_within,
};
