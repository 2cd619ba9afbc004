//! What a family needs for a batch.

/// So many entries, and so many bytes of their keys and values.
#[derive(Clone, Copy)]
pub struct Need {
    pub entries: usize,
    pub bytes: usize,
}
