//! The table whose rows are selected, and the rows.

use mr_base::{Blob, Memory};
use mr_spec::RowList;
use mr_types::{Collation, ColumnDef, ColumnType, IndexDef, Kind, Row, TableDef, Value, ValueList};
use sqlite_items::Items;
use std::alloc::Global;

fn column_of(alloc: Global, kind: Kind) -> Result<ColumnDef, Memory> {
    Ok(ColumnDef {
        name: Blob::from_slice(alloc, b"")?,
        ty: ColumnType {
            kind,
            nullable: false,
        },
        default: None,
    })
}

fn key_of(alloc: Global) -> Result<IndexDef, Memory> {
    Ok(IndexDef {
        name: Blob::from_slice(alloc, b"")?,
        columns: Blob::from_slice(alloc, b"\x00")?,
        unique: true,
        comment: Blob::from_slice(alloc, b"")?,
    })
}

/// A number as the primary key, a number, and a text.
pub fn table(alloc: Global) -> Result<TableDef, Memory> {
    let mut columns = Items::new(alloc);
    columns.push(column_of(alloc, Kind::BigInt)?)?;
    columns.push(column_of(alloc, Kind::Int)?)?;
    columns.push(column_of(alloc, Kind::VarChar(20, Collation::Ci))?)?;
    Ok(TableDef::new(
        Blob::from_slice(alloc, b"t")?,
        columns,
        key_of(alloc)?,
        Items::new(alloc),
        Blob::from_slice(alloc, b"")?,
        None,
    ))
}

/// The next number of a generator.
fn next(x: u64) -> u64 {
    x.wrapping_mul(6364136223846793005)
        .wrapping_add(1442695040888963407)
}

/// A random primary key, a number below 10, and one of two texts.
fn row_of(alloc: Global, x: u64) -> Result<Row, Memory> {
    let text: &[u8] = if x < 1 << 63 { b"x" } else { b"y" };
    let mut fields = ValueList::new(alloc);
    fields.push(Value::Number((x >> 16) as i128))?;
    fields.push(Value::Number(((x >> 40) % 10) as i128))?;
    fields.push(Value::Text(Blob::from_slice(alloc, text)?))?;
    Ok(Row {
        hidden: None,
        stamp: None,
        fields,
    })
}

/// So many rows.
pub fn rows_of(alloc: Global, count: usize) -> Result<RowList, Memory> {
    let mut rows = RowList::new(alloc);
    let mut x = 1;
    for _ in 0..count {
        x = next(x);
        rows.push(row_of(alloc, x)?)?;
    }
    Ok(rows)
}
