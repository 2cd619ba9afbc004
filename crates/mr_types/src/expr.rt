//! Conditions of statements.

use crate::value::{Value, ValueList};
use mr_base::Blob;
use sqlite_items::{Boxed, Items};

/// A comparison: `=`, `<>`, `<`, `<=`, `>`, `>=`.
#[derive(Clone, Copy, Drop)]
pub enum Cmp {
    Eq,
    Ne,
    Lt,
    Le,
    Gt,
    Ge,
}

/// A condition on a row. IS NOT NULL, NOT BETWEEN and NOT IN are a `Not`; `And` and `Or` have two
/// parts or more, so a condition is no deeper than its nesting allows.
#[derive(Drop)]
pub enum Expr {
    /// A column against a literal.
    Compare(Blob, Cmp, Value),
    IsNull(Blob),
    /// From the first literal to the second, both included.
    Between(Blob, Value, Value),
    OneOf(Blob, ValueList),
    Not(Boxed<Expr>),
    And(Items<Expr>),
    Or(Items<Expr>),
}

pub type ExprList = Items<Expr>;
