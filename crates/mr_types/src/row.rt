//! Rows, changes of rows, commits and replies.

ghost use Rattle.std.specs.Prelude.{◌≡◌, IfOk};

use crate::copies::copy_values;
use crate::definition::{IndexDef, TableDef};
use crate::value::{RowTable, ValueList};
use mr_base::{Blob, Memory};
use sqlite_items::Items;
use std::alloc::Global;

/// A row: one value per column, a hidden number exactly where the table has no primary key, and a
/// stamp exactly where it has a TTL.
#[derive(Drop)]
pub struct Row {
    pub hidden: Option<u64>,
    pub stamp: Option<u64>,
    pub fields: ValueList,
}

impl Row {
    /// A copy of this row.
    pub fn copy(&self, alloc: Global) -> Result<Row, Memory>
        ensures { IfOk result (λ r. r ≡ self.now) }
    {
        Ok(Row {
            hidden: self.hidden,
            stamp: self.stamp,
            fields: copy_values(alloc, &self.fields)?,
        })
    }
}

/// A change of one row.
#[derive(Drop)]
pub enum Change {
    Insert { table: Blob, new: Row },
    Update { table: Blob, old: Row, new: Row },
    Delete { table: Blob, old: Row },
}

pub type ChangeList = Items<Change>;

/// A change of the schema: the tables and keys by their names.
#[derive(Drop)]
pub enum Schema {
    CreateTable(TableDef),
    DropTable(Blob),
    /// The table, and its new key.
    CreateIndex(Blob, IndexDef),
    /// The table, and the key's name.
    DropIndex(Blob, Blob),
}

#[derive(Drop)]
pub enum CommitBody {
    Rows(ChangeList),
    Schema(Schema),
}

/// What one transaction, or one schema statement, has changed at a moment in seconds.
#[derive(Drop)]
pub struct Commit {
    pub moment: u64,
    pub body: CommitBody,
}

/// A statement's reply.
#[derive(Drop)]
pub enum Reply {
    Ok(u64),
    Rows(RowTable),
    Refused(u16),
}
