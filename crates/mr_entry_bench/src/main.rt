//! How long it takes to judge an entry of a key over two texts and to read both from it: `mr_entry_bench 1000000`. Any other word stands for
//! 100,000 entries.
#![tactic(auto)]

use mr_base::{Blob, Memory};
use mr_entry::{EntryRef, places_of};
use mr_types::{Collation, ColumnDef, ColumnType, FieldRef, IndexDef, Kind, TableDef};
use sqlite_items::Items;
use std::alloc::Global;
use std::time::Instant;
use std::{env, io};

fn column(alloc: Global, kind: Kind) -> Result<ColumnDef, Memory> {
    Ok(ColumnDef {
        name: Blob::from_slice(alloc, b"c")?,
        ty: ColumnType {
            kind,
            nullable: false,
        },
        default: None,
    })
}

fn key(alloc: Global, columns: &[u8], unique: bool) -> Result<IndexDef, Memory> {
    Ok(IndexDef {
        name: Blob::from_slice(alloc, b"k")?,
        columns: Blob::from_slice(alloc, columns)?,
        unique,
        comment: Blob::from_slice(alloc, b"")?,
    })
}

/// A BIGINT, which is the primary key, and two texts with a key over both.
fn table(alloc: Global) -> Result<TableDef, Memory> {
    let mut columns = Items::new(alloc);
    columns.push(column(alloc, Kind::BigInt)?)?;
    columns.push(column(alloc, Kind::VarChar(20, Collation::Bin))?)?;
    columns.push(column(alloc, Kind::VarChar(20, Collation::Bin))?)?;
    let mut keys = Items::new(alloc);
    keys.push(key(alloc, b"\x01\x02", false)?)?;
    Ok(TableDef::new(
        Blob::from_slice(alloc, b"t")?,
        columns,
        key(alloc, b"\x00", true)?,
        keys,
        Blob::from_slice(alloc, b"")?,
        None,
    ))
}

/// The entry of a row with two texts of 16 letters, and the primary key 7, under index 257.
const KEY: &[u8] =
    b"\x00\x00\x01\x01abcdefgh\x03ijklmnop\x02abcdefgh\x03ijklmnop\x02\x80\x00\x00\x00\x00\x00\x00\x07";

/// No spaces were taken from either text.
const VALUE: &[u8] = b"\x00\x00\x00\x00";

fn size_of(field: FieldRef<'_>) -> usize {
    match field {
        FieldRef::Null => 0,
        FieldRef::Number(_) => 8,
        FieldRef::Slice(bytes) => bytes.len(),
        FieldRef::Pieces(pieces) => pieces.len(),
    }
}

/// The bytes of both texts of so many entries, each of which is judged.
fn read_many(def: &TableDef, places: &[u8], count: u32) -> usize {
    let mut sum = 0usize;
    for _ in 0..count {
        if let Ok(entry) = EntryRef::decode(def, places, KEY, VALUE) {
            sum = sum
                .wrapping_add(size_of(entry.field(1)))
                .wrapping_add(size_of(entry.field(2)));
        }
    }
    sum
}

fn time_entries(rt: &HostRuntime, def: &TableDef, places: &[u8], count: u32) -> io::Result<()> {
    let start = Instant::now(rt)?;
    let sum = read_many(def, places, count);
    let took = start.elapsed(rt)?.as_micros();
    println!(rt; "{count} entries judged, two texts each: {took} us ({sum} bytes)")
}

fn time_table(rt: &HostRuntime, def: &TableDef, count: u32) -> io::Result<()> {
    match places_of(rt.alloc(), def, 1) {
        Ok(places) => time_entries(rt, def, places.as_slice(), count),
        Err(_) => Ok(()),
    }
}

fn time(rt: &HostRuntime, count: u32) -> io::Result<()> {
    match table(rt.alloc()) {
        Ok(def) => time_table(rt, &def, count),
        Err(_) => Ok(()),
    }
}

fn main(rt: HostRuntime) -> io::Result<()> {
    for word in env::args(&rt)?.skip(1) {
        let count = match word.as_str() {
            "1000000" => 1000000,
            _ => 100000,
        };
        time(&rt, count)?;
    }
    Ok(())
}
