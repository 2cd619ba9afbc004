//! The table of the tests.

ghost use Rattle.std.specs.Prelude.{◌≡◌, ◌∷◌, [], IfOk, true, false};

use mr_base::{Blob, Memory};
use mr_types::{Collation, ColumnDef, ColumnType, IndexDef, Kind, TableDef};
use sqlite_items::Items;
use std::alloc::Global;

const BIG: Kind = Kind::BigInt;

const NAME: Kind = Kind::VarChar(20, Collation::Ci);

fn column_of(alloc: Global, kind: Kind, nullable: bool) -> Result<ColumnDef, Memory>
    ensures { IfOk result (λ c. c ≡ record { name = []; ty = record { kind = kind; nullable = nullable }; default = None }) }
{
    Ok(ColumnDef {
        name: Blob::from_slice(alloc, b"")?,
        ty: ColumnType { kind, nullable },
        default: None,
    })
}

/// A key over the columns at these places.
fn key_of(alloc: Global, name: &[u8], places: &[u8]) -> Result<IndexDef, Memory> {
    Ok(IndexDef {
        name: Blob::from_slice(alloc, name)?,
        columns: Blob::from_slice(alloc, places)?,
        unique: name.is_empty(),
        comment: Blob::from_slice(alloc, b"")?,
    })
}

/// A number that is the primary key, and a text that may be NULL and has a key of its own.
pub fn names(alloc: Global) -> Result<TableDef, Memory>
    ensures { IfOk result (λ def. def.columns ≡ record { name = []; ty = record { kind = BIG; nullable = false }; default = None } ∷ record { name = []; ty = record { kind = NAME; nullable = true }; default = None } ∷ []) }
{
    let mut columns = Items::new(alloc);
    columns.push(column_of(alloc, BIG, false)?)?;
    columns.push(column_of(alloc, NAME, true)?)?;
    let mut secondary = Items::new(alloc);
    secondary.push(key_of(alloc, b"k", b"\x01")?)?;
    Ok(TableDef::new(
        Blob::from_slice(alloc, b"u")?,
        columns,
        key_of(alloc, b"", b"\x00")?,
        secondary,
        Blob::from_slice(alloc, b"")?,
        None,
    ))
}
