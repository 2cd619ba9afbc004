//! Definitions of tables. Each is made by `TableDef::new`, and copied with changes by the methods
//! here.

ghost use Rattle.std.specs.Prelude.{◌≡◌, ◌<◌, ◌++◌, ◌∷◌, [], Option, List, ℕ, length, remove, IfOk};

use crate::copies::{copy_columns, copy_default, copy_keys};
use crate::kind::ColumnType;
use crate::value::Value;
use mr_base::{Blob, Memory};
use sqlite_items::Items;
use std::alloc::Global;

/// Names, which contracts see as a list of lists of bytes.
pub type NameList = Items<Blob>;

/// A column of a definition. Without a default a value must be given.
#[derive(Drop)]
pub struct ColumnDef {
    pub name: Blob,
    pub ty: ColumnType,
    pub default: Option<Value>,
}

pub type ColumnList = Items<ColumnDef>;

/// A key: the places of its columns, and its comment, which names its column family.
#[derive(Drop)]
pub struct IndexDef {
    pub name: Blob,
    pub columns: Blob,
    pub unique: bool,
    pub comment: Blob,
}

pub type IndexList = Items<IndexDef>;

/// How long rows live, in seconds, and the column that holds their stamp, if there is one.
#[derive(Clone, Copy, Drop)]
pub struct Ttl {
    pub duration: u64,
    pub column: Option<u8>,
}

/// The definition of a table. A primary key without columns means the hidden number.
#[derive(Drop)]
pub struct TableDef {
    pub name: Blob,
    pub columns: ColumnList,
    pub primary: IndexDef,
    pub secondary: IndexList,
    pub comment: Blob,
    pub ttl: Option<Ttl>,
}

impl ColumnDef {
    /// A copy of this column.
    pub fn copy(&self, alloc: Global) -> Result<ColumnDef, Memory>
        ensures { IfOk result (λ c. c ≡ self.now) }
    {
        Ok(ColumnDef {
            name: self.name.copy(alloc)?,
            ty: self.ty,
            default: copy_default(alloc, &self.default)?,
        })
    }
}

impl IndexDef {
    /// A copy of this key.
    pub fn copy(&self, alloc: Global) -> Result<IndexDef, Memory>
        ensures { IfOk result (λ k. k ≡ self.now) }
    {
        Ok(IndexDef {
            name: self.name.copy(alloc)?,
            columns: self.columns.copy(alloc)?,
            unique: self.unique,
            comment: self.comment.copy(alloc)?,
        })
    }
}

impl TableDef {
    /// A definition of these parts. It is made from a text that was checked, or from bytes that
    /// were read.
    pub fn new(
        name: Blob,
        columns: ColumnList,
        primary: IndexDef,
        secondary: IndexList,
        comment: Blob,
        ttl: Option<Ttl>,
    ) -> TableDef
        ensures { result ≡ record { name = name; columns = columns; primary = primary; secondary = secondary; comment = comment; ttl = ttl } }
    {
        TableDef {
            name,
            columns,
            primary,
            secondary,
            comment,
            ttl,
        }
    }

    /// A copy of this definition.
    pub fn copy(&self, alloc: Global) -> Result<TableDef, Memory>
        ensures { IfOk result (λ d. d ≡ self.now) }
    {
        Ok(TableDef {
            name: self.name.copy(alloc)?,
            columns: copy_columns(alloc, &self.columns)?,
            primary: self.primary.copy(alloc)?,
            secondary: copy_keys(alloc, &self.secondary)?,
            comment: self.comment.copy(alloc)?,
            ttl: self.ttl,
        })
    }

    /// A copy of this definition with a further secondary key, the last one.
    pub fn with_key(&self, alloc: Global, key: &IndexDef) -> Result<TableDef, Memory>
        ensures { IfOk result (λ d. d ≡ record self.now { secondary = self.now.secondary ++ key.now ∷ [] }) }
    {
        let mut def = self.copy(alloc)?;
        def.secondary.push(key.copy(alloc)?)?;
        Ok(def)
    }

    /// A copy of this definition without the secondary key at a place.
    pub fn without_key(&self, alloc: Global, at: usize) -> Result<TableDef, Memory>
        requires { at < length self.now.secondary }
        ensures { IfOk result (λ d. d ≡ record self.now { secondary = remove self.now.secondary at }) }
    {
        let mut def = self.copy(alloc)?;
        let _key = def.secondary.remove(at);
        Ok(def)
    }
}
