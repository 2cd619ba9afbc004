//! Batches, as the records of an engine log bring them.

use mr_wal::Batch;

/// A batch that counts, with the number of its commit where one prepared it. All its operations have its sequence number.
#[derive(Drop)]
pub struct Batched {
    pub commit: Option<u64>,
    pub sequence: u64,
    pub operations: Batch,
}

/// A batch that is prepared for a commit.
#[derive(Drop)]
pub struct Prepared {
    pub commit: u64,
    pub sequence: u64,
    pub operations: Batch,
}

/// What one record makes count: the prepare before it, where it brings the verdict that this one is committed, and then its own batch,
/// where it is a plain one.
#[derive(Drop)]
pub struct Counted {
    pub committed: Option<Batched>,
    pub plain: Option<Batched>,
}
