//! A family under its number.
use mr_family::Family;

/// A family and its number. Beside it stands what its own calls don't tell: whether a version of it is in memory, and whether it is
/// empty, which means that it has no version and no run, whatever room it has.
#[derive(Drop)]
pub struct Numbered {
    pub(crate) number: u32,
    pub(crate) family: Family,
    pub(crate) in_memory: bool,
    pub(crate) is_fresh: bool,
}
