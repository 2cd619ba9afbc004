//! That the commits of a run are lawful: worlds are sound at an opening, each statement keeps them
//! so, and the commits of sound worlds are lawful. Beside it, that hidden numbers stay above those
//! that are used, and how many a statement draws.
#![tactic(auto)]

mod lists;
mod numbers;
mod rows;
mod sound;

pub use lists::elements_are_contained;
pub use numbers::{
    draws_are_few, numbers_of_an_opening_are_above, numbers_rise_by_rows_at_most,
    numbers_stay_above_those_used,
};
pub use rows::rows_are_of_their_tables;
pub use sound::{
    openings_are_sound, runs_keep_commits_lawful, runs_keep_worlds_sound,
    scripts_keep_commits_lawful, sound_commits_are_lawful, statements_keep_worlds_sound,
    texts_are_spelled,
};
