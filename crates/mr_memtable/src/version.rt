//! A version where it stands in memory.

/// A version of a key: its sequence number, whether it is a put, and its value, empty for a deletion.
#[derive(Clone, Copy)]
pub struct VersionRef<'a> {
    pub sequence: u64,
    pub is_put: bool,
    pub value: &'a [u8],
}
