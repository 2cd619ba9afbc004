//! A family of keys: one memtable and its live runs as one list of versions.
#![tactic(auto)]

mod family;
mod laws;
mod memory;
mod parts;

pub use family::{Family, FamilyCursor};
pub use laws::{
    families_are_in_order, families_are_their_files, look_ups_are_views,
    look_ups_leave_families_warm, whole_families_have_no_offence,
};
pub use parts::{Part, RunPart};
