//! Worked entries, and keys and values that are none.

use mr_base::{Blob, DefAnswer, Memory};
use mr_dict::{DictEntry, NumberList, read_entry, write_entry};
use mr_types::{ColumnDef, ColumnList, ColumnType, IndexDef, IndexList, Kind, TableDef};
use std::alloc::Global;
use std::test::Fail;

/// An entry of each kind: its key, its value, and for each of their bytes the first offence where 0x80 is added to it, `-` where it
/// is an entry still, else a place from `0` on.
const ENTRIES: &[u8] = b"\
\0\0\0\x01t/\0\0\x01\0\0\0\x01\x01\x01t\x01\x02id\x03\0\0\0\0\0\x01\0\0\0\x01\x01k\x01\x01\0\0\0\0\0/00004--------99I@@@CDDFGHMJKKUNNPWRSSUU;\
\0\0\0\x02\0\0\x01\0/\0\0\0\x01/0000--------;\
\0\0\0\x03\0\0\0\x02/rev:cf/0000----888888;\
\0\0\0\x04\0\0\x01\x02/\0\0\0\x02/0000--------;\
\0\0\0\x05\0\0\x01\x03/\x01t\x01k\x01\x01\0\0\0\0\0\0\x01\0\x03\xFF\0\x01/0000----88::<J-??----EE---;\
\0\0\0\x06/\0\0\x01\x03/0000----;\
\0\0\0\x07\0\0\x01\x04/\0\0\0\0\0\0\0\x07/0000------------;\
\0\0\0\x08/\0\0\0\0\0\0\0\x03\0\0\0\0\0\0\0\x32/0000----------------";

/// Keys and values that are none, and the first offence.
const NO_ENTRIES: &[u8] = b"\
//0;\
\0\0\0//0;\
\0\0\0\x09//0;\
\0\0\0\x01//4;\
\0\0\0\x01t/\0\0\x01/5;\
\0\0\0\x01t/\0\0\x01\0/9;\
\0\0\0\x01u/\0\0\x01\0\x01t\0/9;\
\0\0\0\x01t/\0\0\x01\0\x01t\0/<;\
\0\0\0\x02\0\0\x01/\0\0\0\x01/4;\
\0\0\0\x02\0\0\x01\0\0/\0\0\0\x01/8;\
\0\0\0\x02\0\0\x01\0/\0\0\0/8;\
\0\0\0\x02\0\0\x01\0/\0\0\0\x01\0/<;\
\0\0\0\x03\0\0\0\x02//8;\
\0\0\0\x03\0\0\0\x02/c\x80/8;\
\0\0\0\x05\0\0\x01\x03/\x01t\x01k\x02/<;\
\0\0\0\x06\0/\0\0\x01\0/4;\
\0\0\0\x08/\0\0\0\0\0\0\0\x03\0/<";

/// Whether the entry that was read is written as it stands.
fn is_written_again(alloc: Global, key: &[u8], value: &[u8]) -> Result<bool, DefAnswer> {
    let entry = read_entry(alloc, key, value)?;
    let written = write_entry(alloc, &entry)?;
    Ok(written.0.as_slice() == key && written.1.as_slice() == value)
}

/// The first offence, as a place from `0` on, or `-` where they are an entry that is written as it stands.
fn told(alloc: Global, key: &[u8], value: &[u8]) -> Result<u8, Memory> {
    match is_written_again(alloc, key, value) {
        Ok(true) => Ok(b'-'),
        Ok(false) => Ok(b'!'),
        Err(DefAnswer::Malformed(at)) => Ok(if at < 80 { b'0' + at as u8 } else { b'!' }),
        Err(DefAnswer::Memory) => Err(Memory),
    }
}

/// What is told where 0x80 is added to one of the bytes of a key of this size and its value.
fn told_of_change(alloc: Global, both: &[u8], size: usize, place: usize) -> Result<u8, Memory> {
    let mut changed = both.to_vec(alloc)?;
    if place < changed.len() {
        changed[place] = changed[place].wrapping_add(0x80);
    }
    match changed.as_slice().split_at_checked(size) {
        Some((key, value)) => told(alloc, key, value),
        None => Ok(b'!'),
    }
}

fn are_told(alloc: Global, both: &[u8], size: usize, places: &[u8]) -> Result<bool, Memory> {
    if places.len() != both.len() {
        return Ok(false);
    }
    for place in 0..both.len() {
        if told_of_change(alloc, both, size, place)? != places[place] {
            return Ok(false);
        }
    }
    Ok(true)
}

/// It is an entry, and whatever is changed is told at its place.
fn is_exact(alloc: Global, key: &[u8], value: &[u8], places: &[u8]) -> Result<bool, Memory> {
    let mut both = key.to_vec(alloc)?;
    both.extend_from_slice(value)?;
    Ok(told(alloc, key, value)? == b'-' && are_told(alloc, both.as_slice(), key.len(), places)?)
}

/// The key, the value and the places of a row.
fn parts(row: &[u8]) -> (&[u8], &[u8], &[u8]) {
    let mut parts = row.split(|byte| *byte == b'/');
    let key = parts.next().unwrap_or(&[]);
    let value = parts.next().unwrap_or(&[]);
    (key, value, parts.next().unwrap_or(&[]))
}

fn is_entry_row(alloc: Global, row: &[u8]) -> Result<bool, Memory> {
    let (key, value, places) = parts(row);
    is_exact(alloc, key, value, places)
}

fn is_other_row(alloc: Global, row: &[u8]) -> Result<bool, Memory> {
    let (key, value, place) = parts(row);
    Ok([told(alloc, key, value)?].as_slice() == place)
}

#[test]
fn entries_of_each_kind(rt: HostRuntime) {
    for row in ENTRIES.split(|byte| *byte == b';') {
        assert!(rt; is_entry_row(rt.alloc(), row) == Ok(true), "{row:?}");
    }
}

#[test]
fn what_is_no_entry(rt: HostRuntime) {
    for row in NO_ENTRIES.split(|byte| *byte == b';') {
        assert!(rt; is_other_row(rt.alloc(), row) == Ok(true), "{row:?}");
    }
}

fn key_named(alloc: Global, name: &[u8]) -> Result<IndexDef, Memory> {
    Ok(IndexDef {
        name: Blob::from_slice(alloc, name)?,
        columns: Blob::from_slice(alloc, b"\0")?,
        unique: true,
        comment: Blob::from_slice(alloc, b"")?,
    })
}

/// Table `t` of a BIGINT column `id` and a key `k` on it, with this comment.
fn table_of(alloc: Global, comment: Blob) -> Result<TableDef, Memory> {
    let mut columns = ColumnList::new(alloc);
    columns.push(ColumnDef {
        name: Blob::from_slice(alloc, b"id")?,
        ty: ColumnType {
            kind: Kind::BigInt,
            nullable: false,
        },
        default: None,
    })?;
    let mut keys = IndexList::new(alloc);
    keys.push(key_named(alloc, b"k")?)?;
    let name = Blob::from_slice(alloc, b"t")?;
    let primary = key_named(alloc, b"")?;
    Ok(TableDef::new(name, columns, primary, keys, comment, None))
}

/// A comment of 351 bytes, which end in what an empty list of keys and an empty comment are.
fn long_comment(alloc: Global) -> Result<Blob, Memory> {
    let mut bytes = Vec::new(alloc);
    bytes.extend_from_slice(&[b'x'; 348])?;
    bytes.extend_from_slice(b"\0\0\0")?;
    Ok(Blob::from_vec(bytes))
}

/// Whether the table is written with this number for its second key.
fn is_written(alloc: Global, number: u32) -> Result<bool, Memory> {
    let def = table_of(alloc, long_comment(alloc)?)?;
    let mut numbers = NumberList::new(alloc);
    numbers.push(256)?;
    numbers.push(number)?;
    let name = Blob::from_slice(alloc, b"t")?;
    let entry = DictEntry::Table { name, numbers, def };
    Ok(write_entry(alloc, &entry).is_ok())
}

/// The bytes of the number 0x0174_0000 begin a definition of `t` without columns, whose primary key's comment goes over the
/// definition up to its last three bytes.
#[test]
fn a_table_that_reads_with_fewer_numbers(rt: HostRuntime) -> Result<(), Fail> {
    let alloc = rt.alloc();
    for (number, written) in [
        (257u32, true),
        (0x0174_0000, false),
        (0x0174_0100, true),
        (0x0175_0000, true),
    ] {
        assert_eq!(rt; is_written(alloc, number), Ok(written));
    }
    Ok(())
}
