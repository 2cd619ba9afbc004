//! Why a reader that copies what it reads gives nothing.

use crate::fields::BytesLeft;

#[derive(Clone, Copy, Drop)]
pub enum ReadStop {
    Memory,
    /// The bytes left from the first offence on.
    Left(BytesLeft),
}
