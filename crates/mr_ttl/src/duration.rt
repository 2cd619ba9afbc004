//! How long the rows of an index live.

/// How many seconds the rows of the index with this number live.
#[derive(Clone, Copy, Debug, Drop, PartialEq, Eq)]
pub struct Duration {
    pub index: u32,
    pub seconds: u64,
}

/// Durations of indexes.
pub type DurationList = Vec<Duration>;

/// Index numbers.
pub type NumberList = Vec<u32>;
