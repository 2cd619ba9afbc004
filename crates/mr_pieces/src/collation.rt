//! How texts are compared.

/// `Ci` folds a to z onto A to Z before it compares; `Bin` compares texts as they are.
#[derive(Clone, Copy, Drop, PartialEq, Eq)]
pub enum Collation {
    Bin,
    Ci,
}
