//! Orders of rows: SELECT gives the same of the same rows in whatever order they come, ORDER BY goes
//! by the primary key where it ties, and the rows of each table ascend by it.
#![tactic(auto)]

mod selecting;
mod sorting;
mod views;

pub use selecting::{
    rows_come_in_any_order, selections_of_views_are_of_any_order, ties_go_by_the_primary_key,
};
pub use sorting::{ascending_rows_are_one_list, sorting_is_a_sorted_permutation};
pub use views::tables_ascend;
