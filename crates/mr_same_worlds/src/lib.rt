//! Worlds that no reply tells apart: what an engine has to keep of a world, and no more.
#![tactic(auto)]

mod answers;
mod named;
mod relation;
mod tidiness;

pub use answers::{same_worlds_answer_alike, same_worlds_run_alike, unread_texts_answer_alike};
pub use named::{named_worlds_answer_alike, scripts_run_alike};
pub use relation::sameness_is_an_equivalence;
pub use tidiness::{openings_are_tidy, statements_keep_worlds_tidy};
