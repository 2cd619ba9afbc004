//! A range of a file.

/// So many bytes of a file, from a place on.
#[derive(Clone, Copy, Debug, PartialEq, Eq, Hash)]
pub struct FileSpan {
    pub file: u64,
    pub place: u64,
    pub size: u32,
}
