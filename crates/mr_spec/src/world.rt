//! Tables, transactions and sessions.

use mr_base::Blob;
use mr_types::{ChangeList, NameList, Row, TableDef};
use sqlite_items::Items;

/// A table: its definition, and its rows in the order of the primary key.
#[derive(Drop)]
pub struct Table {
    pub def: TableDef,
    pub rows: RowList,
}

pub type RowList = Items<Row>;

pub type TableList = Items<Table>;

/// A savepoint: how many changes were made before it.
#[derive(Drop)]
pub struct Savepoint {
    pub name: Blob,
    pub kept: u64,
}

/// An open transaction: the number of commits that it sees, once that is fixed, its changes, its
/// savepoints, and the tables that it has used.
#[derive(Drop)]
pub struct Txn {
    pub snapshot: Option<u64>,
    pub changes: ChangeList,
    pub savepoints: Items<Savepoint>,
    pub used: NameList,
}

/// A session: its name, and its transaction where one is open.
#[derive(Drop)]
pub struct Session {
    pub name: Blob,
    pub txn: Option<Txn>,
}

pub type SessionList = Items<Session>;
