//! The places of the folders.

/// The places, among the words after the program's name, of the words that name folders.
#[derive(Clone, Copy, Debug, PartialEq, Eq)]
pub struct Folders {
    pub first: Option<usize>,
    pub second: Option<usize>,
}
