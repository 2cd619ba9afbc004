//! How far a writing statement is.

use crate::world::RowList;
use mr_types::ChangeList;

/// How far a writing statement is: the session's rows with its changes so far, these changes, the
/// next hidden number, and the count of rows for the reply.
#[derive(Drop)]
pub struct Progress {
    pub rows: RowList,
    pub changes: ChangeList,
    pub next: u64,
    pub count: u64,
}

/// A refusal of a writing statement: MySQL's error code, and the next hidden number, since numbers
/// that were drawn stay drawn.
#[derive(Clone, Copy, Drop)]
pub struct Refusal {
    pub code: u16,
    pub next: u64,
}
