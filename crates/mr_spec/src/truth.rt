//! What a condition says of a row.

/// True, false, or unknown because of a NULL.
#[derive(Clone, Copy, Debug, PartialEq, Eq, Drop)]
pub enum Truth {
    True,
    False,
    Unknown,
}
