//! What is known of a statement while its text is read.

use mr_base::Blob;
use mr_pieces::Collation;
use mr_types::{ColumnText, KeyText, KeyTextList, Value};
use sqlite_items::Items;

/// The attributes of a column that have been read, each at most once.
#[derive(Drop)]
pub struct Attributes {
    pub nullable: Option<bool>,
    pub default: Option<Value>,
    /// CHARACTER SET
    pub charset: bool,
    pub collation: Option<Collation>,
    /// PRIMARY KEY
    pub primary: bool,
    /// COMMENT, whose text says nothing
    pub comment: bool,
}

/// A column, and whether its collation is the table's.
#[derive(Drop)]
pub struct ColumnDraft {
    pub text: ColumnText,
    pub of_table: bool,
}

/// The columns and keys that have been read, in text order.
#[derive(Drop)]
pub struct TableDraft {
    pub columns: Items<ColumnDraft>,
    pub keys: KeyTextList,
}

/// The options of a table that have been read, each at most once.
#[derive(Drop)]
pub struct TableOptions {
    pub engine: Option<Blob>,
    /// CHARSET or CHARACTER SET
    pub charset: bool,
    pub collation: Option<Collation>,
    pub comment: Option<Blob>,
}

/// A key, and the name of its table.
#[derive(Drop)]
pub struct TableKey {
    pub table: Blob,
    pub key: KeyText,
}

/// How many rows are left out in front, and how many are given at most.
#[derive(Clone, Copy, Drop)]
pub struct Limit {
    pub skip: u64,
    pub most: Option<u64>,
}
