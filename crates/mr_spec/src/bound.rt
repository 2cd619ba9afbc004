//! Conditions bound to a table.

use mr_types::{Cmp, Value, ValueList};
use sqlite_items::{Boxed, Items};

/// A condition with the places of columns in the place of their names, and with each literal in its
/// column's kind.
#[derive(Drop)]
pub enum Bound {
    Compare(u8, Cmp, Value),
    IsNull(u8),
    Between(u8, Value, Value),
    OneOf(u8, ValueList),
    Not(Boxed<Bound>),
    And(Items<Bound>),
    Or(Items<Bound>),
}

pub type BoundList = Items<Bound>;
