//! Kinds of columns.

use mr_pieces::Collation;

/// What a column holds. A text or bytes have at most as many bytes as the number says.
#[derive(Clone, Copy, Drop)]
pub enum Kind {
    /// -2^31 to 2^31 - 1, 4 bytes in a key.
    Int,
    /// 0 to 2^32 - 1.
    IntUnsigned,
    /// -2^63 to 2^63 - 1, 8 bytes in a key.
    BigInt,
    /// 0 to 2^64 - 1.
    BigIntUnsigned,
    VarChar(u16, Collation),
    VarBinary(u16),
}

/// A column's kind, and whether it takes NULL.
#[derive(Clone, Copy, Drop)]
pub struct ColumnType {
    pub kind: Kind,
    pub nullable: bool,
}

/// A kind as a statement writes it, with any length.
#[derive(Clone, Copy, Drop)]
pub enum KindText {
    Int,
    IntUnsigned,
    BigInt,
    BigIntUnsigned,
    VarChar(u128, Collation),
    VarBinary(u128),
}
