//! What the words of the command line say.

/// The place of the folder among the words after the program's name; the moment of all statements, in
/// seconds; and the length in bytes that the log is not to pass, from 4096 to 2^40.
#[derive(Clone, Copy, Debug, PartialEq, Eq)]
pub struct Options {
    pub folder: usize,
    pub now: Option<u64>,
    pub log_limit: Option<u64>,
}
