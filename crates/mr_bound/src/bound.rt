//! SELECT and UPDATE with the places of columns, counted from 0, in the place of their names.

use mr_base::Blob;
use mr_spec::Bound;
use mr_types::Value;
use sqlite_items::Items;

/// `COUNT(*)`, or MIN or MAX of the column at a place.
#[derive(Clone, Copy, Drop)]
pub enum BoundAggregate {
    Count,
    Min(u8),
    Max(u8),
}

/// The aggregates of one reply, in the order of the list.
pub type BoundAggregateList = Items<BoundAggregate>;

/// What SELECT gives: of each row the columns at these places, or one row of aggregates.
#[derive(Drop)]
pub enum BoundColumns {
    Places(Blob),
    Aggregates(BoundAggregateList),
}

/// One column of ORDER BY.
#[derive(Clone, Copy, Drop)]
pub struct BoundOrder {
    pub column: u8,
    pub descending: bool,
}

/// ORDER BY, the first column before the others.
pub type BoundOrderList = Items<BoundOrder>;

/// SELECT, bound to a table: `skip` rows are left out in front, and then at most `most` given.
#[derive(Drop)]
pub struct BoundSelect {
    pub columns: BoundColumns,
    pub condition: Option<Bound>,
    pub order: BoundOrderList,
    pub skip: u64,
    pub most: Option<u64>,
}

/// A factor of a product: the value of a column so far, or a literal.
#[derive(Drop)]
pub enum BoundFactor {
    Column(u8),
    Literal(Value),
}

/// A product, multiplied from left to right.
pub type BoundFactorList = Items<BoundFactor>;

/// A product in a sum, subtracted where `minus`.
#[derive(Drop)]
pub struct BoundTerm {
    pub minus: bool,
    pub factors: BoundFactorList,
}

/// A sum, added up from left to right.
pub type BoundTermList = Items<BoundTerm>;

/// One assignment to the column at a place; a DEFAULT is one term of one literal.
#[derive(Drop)]
pub struct BoundSet {
    pub column: u8,
    pub to: BoundTermList,
}

/// SET, carried out from left to right.
pub type BoundSetList = Items<BoundSet>;

/// SET and WHERE of an UPDATE, bound to a table.
#[derive(Drop)]
pub struct BoundUpdate {
    pub set: BoundSetList,
    pub condition: Option<Bound>,
}
