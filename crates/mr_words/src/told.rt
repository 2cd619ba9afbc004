//! What the words so far say.

/// What the next word may be: an option or the folder, the value of an option whose name stood alone, or
/// the folder behind `--`.
#[derive(Clone, Copy)]
pub(crate) enum Next {
    Any,
    Now,
    LogLimit,
    Folder,
}

/// What was said.
#[derive(Clone, Copy)]
pub(crate) struct Told {
    pub(crate) folder: Option<usize>,
    pub(crate) now: Option<u64>,
    pub(crate) log_limit: Option<u64>,
}
