//! What one statement adds to the commits, and what that says of snapshots and of definitions: laws
//! for engines that keep numbers of commits in place of the commits.
#![tactic(auto)]

mod adding;
mod defining;
mod since;
mod weights;

pub use adding::statements_add_one_commit_at_most;
pub use defining::stale_is_defined_later;
pub use since::{snapshots_are_fixed_at_all_commits, snapshots_lie_since_the_opening};
pub use weights::changes_are_light_in_their_view;
