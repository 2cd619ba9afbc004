//! How long it takes to read 3 of 20 columns of a row of some 200 bytes, first where each row is judged before it is read, then
//! where it is known to be one, and how long all columns take: `mr_row_bench 1000000`. Any other word stands for 100,000 rows.
#![tactic(auto)]

use mr_base::{Blob, Memory};
use mr_rowval::RowRef;
use mr_types::{Collation, ColumnDef, ColumnType, FieldRef, IndexDef, Kind, TableDef};
use sqlite_items::Items;
use std::alloc::Global;
use std::time::Instant;
use std::{env, io};

fn column(alloc: Global, kind: Kind) -> Result<ColumnDef, Memory> {
    Ok(ColumnDef {
        name: Blob::from_slice(alloc, b"c")?,
        ty: ColumnType {
            kind,
            nullable: false,
        },
        default: None,
    })
}

/// A BIGINT, which is the primary key, and behind it an INT and a text by turns.
fn table(alloc: Global) -> Result<TableDef, Memory> {
    let mut columns = Items::new(alloc);
    columns.push(column(alloc, Kind::BigInt)?)?;
    for place in 1..20u8 {
        let kind = if place % 2 == 1 {
            Kind::Int
        } else {
            Kind::VarChar(20, Collation::Bin)
        };
        columns.push(column(alloc, kind)?)?;
    }
    let primary = IndexDef {
        name: Blob::from_slice(alloc, b"")?,
        columns: Blob::from_slice(alloc, b"\x00")?,
        unique: true,
        comment: Blob::from_slice(alloc, b"")?,
    };
    Ok(TableDef::new(
        Blob::from_slice(alloc, b"t")?,
        columns,
        primary,
        Items::new(alloc),
        Blob::from_slice(alloc, b"")?,
        None,
    ))
}

/// The key of row 7 under index 256.
const KEY: &[u8] = b"\x00\x00\x01\x00\x80\x00\x00\x00\x00\x00\x00\x07";

/// Its value: the number 7 and a text of 16 letters by turns.
fn value(alloc: Global) -> Result<Blob, Memory> {
    let mut bytes = Blob::from_slice(alloc, b"")?.into_vec();
    for place in 1..20u8 {
        if place % 2 == 1 {
            bytes.extend_from_slice(b"\x00\x00\x00\x07")?;
        } else {
            bytes.extend_from_slice(b"\x00\x10abcdefghijklmnop")?;
        }
    }
    Ok(Blob::from_vec(bytes))
}

fn size_of(field: FieldRef<'_>) -> usize {
    match field {
        FieldRef::Null => 0,
        FieldRef::Number(_) => 8,
        FieldRef::Slice(bytes) => bytes.len(),
        FieldRef::Pieces(pieces) => pieces.len(),
    }
}

/// The bytes of columns 3, 10 and 17.
fn three_of(row: &RowRef<'_>) -> usize {
    size_of(row.field(3))
        .wrapping_add(size_of(row.field(10)))
        .wrapping_add(size_of(row.field(17)))
}

/// The bytes of all columns.
fn all_of(row: &RowRef<'_>) -> usize {
    let mut sum = 0usize;
    for place in 0..20u8 {
        sum = sum.wrapping_add(size_of(row.field(place)));
    }
    sum
}

/// Reads three columns of so many rows, each of which is judged.
fn judge_many(def: &TableDef, value: &[u8], count: u32) -> usize {
    let mut sum = 0usize;
    for _ in 0..count {
        if let Ok(row) = RowRef::decode(def, KEY, value) {
            sum = sum.wrapping_add(three_of(&row));
        }
    }
    sum
}

/// Reads three columns of a row so many times.
fn read_many(row: &RowRef<'_>, count: u32) -> usize {
    let mut sum = 0usize;
    for _ in 0..count {
        sum = sum.wrapping_add(three_of(row));
    }
    sum
}

/// Reads all columns of a row so many times.
fn read_all_many(row: &RowRef<'_>, count: u32) -> usize {
    let mut sum = 0usize;
    for _ in 0..count {
        sum = sum.wrapping_add(all_of(row));
    }
    sum
}

/// Times reading that judges each row.
fn time_judging(rt: &HostRuntime, def: &TableDef, value: &[u8], count: u32) -> io::Result<()> {
    let start = Instant::now(rt)?;
    let sum = judge_many(def, value, count);
    let took = start.elapsed(rt)?.as_micros();
    println!(rt; "{count} rows judged, 3 columns each: {took} us ({sum} bytes)")
}

/// Times reading of columns of a row that is known to be one.
fn time_reading(rt: &HostRuntime, row: &RowRef<'_>, count: u32) -> io::Result<()> {
    let start = Instant::now(rt)?;
    let sum = read_many(row, count);
    let took = start.elapsed(rt)?.as_micros();
    println!(rt; "{count} times 3 columns: {took} us ({sum} bytes)")?;
    let start = Instant::now(rt)?;
    let sum = read_all_many(row, count);
    let took = start.elapsed(rt)?.as_micros();
    println!(rt; "{count} times 20 columns: {took} us ({sum} bytes)")
}

fn time_rows(rt: &HostRuntime, def: &TableDef, value: &[u8], count: u32) -> io::Result<()> {
    time_judging(rt, def, value, count)?;
    match RowRef::decode(def, KEY, value) {
        Ok(row) => time_reading(rt, &row, count),
        Err(_) => Ok(()),
    }
}

fn time_table(rt: &HostRuntime, def: &TableDef, count: u32) -> io::Result<()> {
    match value(rt.alloc()) {
        Ok(value) => time_rows(rt, def, value.as_slice(), count),
        Err(_) => Ok(()),
    }
}

fn time(rt: &HostRuntime, count: u32) -> io::Result<()> {
    match table(rt.alloc()) {
        Ok(def) => time_table(rt, &def, count),
        Err(_) => Ok(()),
    }
}

fn main(rt: HostRuntime) -> io::Result<()> {
    for word in env::args(&rt)?.skip(1) {
        let count = match word.as_str() {
            "1000000" => 1000000,
            _ => 100000,
        };
        time(&rt, count)?;
    }
    Ok(())
}
