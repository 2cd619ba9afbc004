//! What is kept of a commit.

use mr_base::Blob;

/// A commit's number and its claims.
#[derive(Drop)]
pub struct Commit {
    pub number: u64,
    pub claims: Vec<Blob>,
}
