//! What a claim is to a session.

/// What a claim is to a session: free, held by another session, or changed since its snapshot by the commit with this number.
#[derive(Clone, Copy, Debug, PartialEq, Eq)]
pub enum Claimed {
    Free,
    Held(u8),
    Changed(u64),
}
