//! What the tests share: two tables, and bytes of which one is changed.

ghost use Rattle.std.specs.Prelude.{◌≡◌, ◌∷◌, [], IfOk, true, false};

use mr_base::{Blob, Memory};
use mr_types::{Collation, ColumnDef, ColumnType, IndexDef, Kind, TableDef, Ttl};
use sqlite_items::Items;
use std::alloc::Global;

const BIG: Kind = Kind::BigInt;

const NAME: Kind = Kind::VarChar(20, Collation::Ci);

fn column_of(alloc: Global, kind: Kind, nullable: bool) -> Result<ColumnDef, Memory>
    ensures { IfOk result (λ c. c ≡ record { name = []; ty = record { kind = kind; nullable = nullable }; default = None }) }
{
    Ok(ColumnDef {
        name: Blob::from_slice(alloc, b"")?,
        ty: ColumnType { kind, nullable },
        default: None,
    })
}

/// A key over the columns at these places.
fn key_of(alloc: Global, name: &[u8], places: &[u8]) -> Result<IndexDef, Memory>
    ensures { IfOk result (λ k. k.columns ≡ places.now) }
{
    Ok(IndexDef {
        name: Blob::from_slice(alloc, name)?,
        columns: Blob::from_slice(alloc, places)?,
        unique: name.is_empty(),
        comment: Blob::from_slice(alloc, b"")?,
    })
}

/// A number that is the primary key, and a text that may be NULL and has a key of its own.
pub fn names(alloc: Global) -> Result<TableDef, Memory>
    ensures columns { IfOk result (λ def. def.columns ≡ record { name = []; ty = record { kind = BIG; nullable = false }; default = None } ∷ record { name = []; ty = record { kind = NAME; nullable = true }; default = None } ∷ []) }
    ensures key { IfOk result (λ def. def.primary.columns ≡ 0 ∷ []) }
    ensures no_ttl { IfOk result (λ def. def.ttl ≡ None) }
{
    let mut columns = Items::new(alloc);
    columns.push(column_of(alloc, BIG, false)?)?;
    columns.push(column_of(alloc, NAME, true)?)?;
    let mut secondary = Items::new(alloc);
    secondary.push(key_of(alloc, b"k", b"\x01")?)?;
    Ok(TableDef::new(
        Blob::from_slice(alloc, b"u")?,
        columns,
        key_of(alloc, b"", b"\x00")?,
        secondary,
        Blob::from_slice(alloc, b"")?,
        None,
    ))
}

/// A number that may be NULL, a text that is the primary key, bytes that may be NULL, and the
/// column of the stamp.
pub fn stamped(alloc: Global) -> Result<TableDef, Memory> {
    let mut columns = Items::new(alloc);
    columns.push(column_of(alloc, Kind::Int, true)?)?;
    columns.push(column_of(alloc, Kind::VarChar(4, Collation::Ci), false)?)?;
    columns.push(column_of(alloc, Kind::VarBinary(3), true)?)?;
    columns.push(column_of(alloc, Kind::BigIntUnsigned, false)?)?;
    Ok(TableDef::new(
        Blob::from_slice(alloc, b"s")?,
        columns,
        key_of(alloc, b"", b"\x01")?,
        Items::new(alloc),
        Blob::from_slice(alloc, b"ttl_duration=5;ttl_col=d;")?,
        Some(Ttl {
            duration: 5,
            column: Some(3),
        }),
    ))
}

/// These bytes with another one at a place.
pub fn changed(alloc: Global, bytes: &[u8], at: usize, byte: u8) -> Result<Blob, Memory> {
    let mut copy = Blob::from_slice(alloc, bytes)?.into_vec();
    if at < copy.len() {
        copy[at] = byte;
    }
    Ok(Blob::from_vec(copy))
}
