//! Statements, as their text says them. Names are as written.

use crate::definition::NameList;
use crate::expr::Expr;
use crate::text::{KeyText, TableText};
use crate::value::Value;
use mr_base::Blob;
use sqlite_items::Items;

pub type Tuple = Items<ItemValue>;

pub type TupleList = Items<Tuple>;

pub type FactorList = Items<Factor>;

pub type TermList = Items<Term>;

pub type SetList = Items<SetItem>;

pub type AggregateList = Items<Aggregate>;

pub type OrderList = Items<OrderItem>;

/// A value in a tuple of INSERT or REPLACE.
#[derive(Drop)]
pub enum ItemValue {
    Default,
    Literal(Value),
}

/// A factor of a product.
#[derive(Drop)]
pub enum Factor {
    Column(Blob),
    Literal(Value),
}

/// A product in a sum, subtracted where `minus`.
#[derive(Drop)]
pub struct Term {
    pub minus: bool,
    pub factors: FactorList,
}

/// What UPDATE sets a column to.
#[derive(Drop)]
pub enum SetTo {
    Default,
    Sum(TermList),
}

/// One assignment of UPDATE.
#[derive(Drop)]
pub struct SetItem {
    pub column: Blob,
    pub to: SetTo,
}

/// `COUNT(*)`, `MIN(column)` or `MAX(column)`.
#[derive(Drop)]
pub enum Aggregate {
    Count,
    Min(Blob),
    Max(Blob),
}

/// What SELECT gives of each row, or of all rows.
#[derive(Drop)]
pub enum Columns {
    All,
    Names(NameList),
    Aggregates(AggregateList),
}

/// One column of ORDER BY.
#[derive(Drop)]
pub struct OrderItem {
    pub column: Blob,
    pub descending: bool,
}

/// The index that FORCE INDEX names.
#[derive(Drop)]
pub enum IndexName {
    Primary,
    Name(Blob),
}

/// SELECT: `skip` rows are left out in front, and then at most `most` given.
#[derive(Drop)]
pub struct Select {
    pub columns: Columns,
    pub table: Blob,
    pub forced: Option<IndexName>,
    pub condition: Option<Expr>,
    pub order: OrderList,
    pub skip: u64,
    pub most: Option<u64>,
}

/// INSERT and REPLACE: the rows, for the columns in this order, or for all.
#[derive(Drop)]
pub struct Insert {
    pub table: Blob,
    pub columns: Option<NameList>,
    pub rows: TupleList,
}

/// A key of a table.
#[derive(Drop)]
pub struct KeyName {
    pub table: Blob,
    pub key: Blob,
}

/// One variant per statement. `engine` is the word behind ENGINE; `snapshot` is WITH CONSISTENT
/// SNAPSHOT.
#[derive(Drop)]
pub enum Statement {
    CreateTable {
        text: TableText,
        if_not_exists: bool,
        engine: Option<Blob>,
    },
    DropTable {
        table: Blob,
        if_exists: bool,
    },
    CreateIndex {
        table: Blob,
        key: KeyText,
    },
    DropIndex(KeyName),
    BeginIndex {
        table: Blob,
        key: KeyText,
    },
    FinishIndex(KeyName),
    CancelIndex(KeyName),
    Insert(Insert),
    Replace(Insert),
    Update {
        table: Blob,
        set: SetList,
        condition: Option<Expr>,
    },
    Delete {
        table: Blob,
        condition: Option<Expr>,
    },
    Select(Select),
    Begin {
        snapshot: bool,
    },
    Commit,
    Rollback,
    RollbackTo(Blob),
    Savepoint(Blob),
    Release(Blob),
    Lock(NameList),
    Unlock,
    Session(Blob),
    Disconnect,
    Work(u32),
}
