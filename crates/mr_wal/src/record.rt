//! What a record of the engine log is.

use crate::operation::Batch;

/// What a record does: prepares commit k, adds a batch at once, or only brings a verdict. All operations of a batch have its sequence
/// number, which is below 2^63.
#[derive(Drop)]
pub enum WalBody {
    Prepare { k: u64, sequence: u64, batch: Batch },
    Plain { sequence: u64, batch: Batch },
    Decided,
}

/// A record: the verdict on the prepare before it, which is 0 where none is pending, 1 where it is committed and 2 where it is abandoned, and what
/// it does itself.
#[derive(Drop)]
pub struct WalRecord {
    pub verdict: u8,
    pub body: WalBody,
}
