//! The manifest: file 0, a log of edits, which tells the live files of a folder.
#![tactic(auto)]

mod edit;
mod edit_read;
mod edit_write;
mod fields;
mod live;
mod manifest;
mod reading;
mod rule;
mod stop;
mod sum;

pub use edit::{Edit, EditList, first_record};
pub use edit_read::read_edits;
pub use edit_write::write_edits;
pub use live::{Live, LiveRun, LiveRunList};
pub use manifest::{MANIFEST_LIMIT, Manifest};
pub use reading::{MANIFEST, peek, read_manifest};
pub use sum::Sum;
