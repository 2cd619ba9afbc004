//! Claims of sessions on keys, and which commits changed them.
#![tactic(auto)]

mod claimed;
mod claims;
mod commit;
mod commits;
mod entries;
mod entry;
mod judge;
mod lists;
mod release;

pub use claimed::Claimed;
pub use claims::Claims;
