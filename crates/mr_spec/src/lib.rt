//! What the engine means: in `specs/` the definitions that the contracts of other crates cite, and
//! here the types that only they need, and the laws that callers cite. No program computes here.
#![tactic(auto)]

mod bound;
mod drafts;
mod laws;
mod progress;
mod truth;
mod world;

pub use bound::{Bound, BoundList};
pub use drafts::{Attributes, ColumnDraft, Limit, TableDraft, TableKey, TableOptions};
pub use laws::{
    bound_conditions_agree, commits_are_kept, others_count_by_their_claims,
    refusals_leave_the_world, replay_is_what_is_seen, same_values_collide, snapshots_stay,
    work_moves_the_moment_alone,
};
pub use progress::{Progress, Refusal};
pub use truth::Truth;
pub use world::{RowList, Savepoint, Session, SessionList, Table, TableList, Txn};
