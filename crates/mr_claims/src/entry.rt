//! What is kept of a claim.

/// The session that holds a claim, how often it does, and the last commit that has the claim.
#[derive(Clone, Copy, Drop)]
pub struct Entry {
    pub session: u8,
    pub count: usize,
    pub changed: Option<u64>,
}
