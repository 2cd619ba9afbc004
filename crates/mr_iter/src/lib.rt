//! Cursors over lists of versions, and many of them as one.
#![tactic(auto)]

mod children;
mod cursor;
mod finding;
mod laws;
mod merge;
mod one_of;
mod order;
mod queue;
mod run;
mod snapshot;
mod walk;

pub use cursor::{Cursor, Listed};
pub use finding::seek_newest;
pub use laws::{
    newest_is_at_its_place, newest_of_merged, newest_with_version, place_in_first_child,
    view_has_keys_once, view_has_newest, views_have_the_newest, views_without_later,
};
pub use merge::Merge;
pub use one_of::OneOf;
pub use order::compare_keys;
pub use run::{Filter, RunInfo, RunOut};
pub use snapshot::AtSnapshot;
pub use walk::{is_before, step, walk_to};
