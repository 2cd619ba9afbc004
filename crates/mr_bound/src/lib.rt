//! Statements bound to a table: SELECT and UPDATE with the places of columns in the place of their
//! names, and what an UPDATE makes of a row.
#![tactic(auto)]

mod binding_select;
mod binding_update;
mod bound;
mod condition;
mod laws;
mod set_checks;
mod stamp;
mod sums;
mod updating;

pub use binding_select::bind_select;
pub use binding_update::bind_update;
pub use bound::{
    BoundAggregate, BoundAggregateList, BoundColumns, BoundFactor, BoundFactorList, BoundOrder,
    BoundOrderList, BoundSelect, BoundSet, BoundSetList, BoundTerm, BoundTermList, BoundUpdate,
};
pub use laws::{
    bound_assignments_agree, bound_selects_agree, bound_updates_choose_the_same_rows,
    rows_of_tables_have_stamps, select_refusals_agree, update_refusals_agree,
};
pub use updating::updated;
