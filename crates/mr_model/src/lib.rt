//! The plain program: it computes the definitions of `mr_spec` over lists, one call a definition, up
//! to one statement, which the server runs, and to the run of a script, which prints them.
#![tactic(auto)]

mod cutting;
mod laws;
mod script;
mod statement_step;

pub use cutting::{Read, ReadList, statements_of};
pub use laws::lawful_commits_are_few;
pub use mr_model_changes::{
    Failed, Scene, delete_changes, insert_changes, replace_changes, update_changes,
};
pub use mr_model_engine::{Building, Engine, NextNumber};
pub use mr_model_rows::{
    clashes, columns_cmp, copy_table, copy_tables, defines, has_claim_in, is_table, is_too_heavy,
    is_unknown, is_visible, kept_by, known_columns, place_of, primary_cmp, replay, right_literals,
    rows_after, same_primary, same_unique, share_claim, table_name, table_of, value_cmp, visible,
    with_changes,
};
pub use mr_model_select::{select_tests, selected};
pub use script::{Ran, run_script};
pub use statement_step::step;
