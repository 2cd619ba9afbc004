//! The plain program's rows and tables: the order of values and rows, conditions, claims, weights, and
//! what changes and commits make of tables. One call computes one definition of `mr_spec`, over lists.
#![tactic(auto)]

mod claims;
mod conditions;
mod copies;
mod database;
mod finding;
mod naming;
mod rows;
mod truth;
mod values;
mod weight;

pub use claims::{has_claim_in, share_claim};
pub use conditions::{is_unknown, kept_by};
pub use copies::{
    copy_change, copy_changes, copy_savepoint, copy_session, copy_sessions, copy_txn, in_front,
};
pub use database::{
    copy_table, copy_tables, defines, is_table, replay, table_name, table_of, with_body,
    with_changes,
};
pub use finding::search;
pub use naming::{known_columns, right_literals};
pub use rows::{
    clashes, columns_cmp, copy_rows, is_visible, kind_at, place_of, primary_cmp, rows_after,
    same_primary, same_unique, value_order, visible, without,
};
pub use values::value_cmp;
pub use weight::is_too_heavy;
