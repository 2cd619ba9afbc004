//! Worked commits, and bytes that are none.

use mr_base::{Blob, DefAnswer, Memory};
use mr_binlog::{read_commit, write_commit};
use std::alloc::Global;
use std::test::Fail;

/// Three changes of table `t`: an insert of a row with a hidden number, a stamp and a value of each
/// form, an update and a delete.
const ROWS: &[u8] =
    b"\0\0\0\0\0\0\0\x07\0\0\0\0\x03\x01\x01t\x03\0\0\0\0\0\0\0\x01\0\0\0\0\0\0\0\x09\x05\0\x01\xFF\xFF\xFF\xFF\xFF\xFF\xFF\xFF\x02\x80\0\0\0\0\0\0\0\x03\0\x02ab\x04\0\x01\xFF\x02\x01t\0\x01\0\0\x01\x01\0\0\0\0\0\0\0\x05\x03\x01t\0\0";

/// The sizes of its fields.
const ROWS_FIELDS: &[u8] =
    b"\x08\x01\x04\x01\x02\x01\x08\x08\x01\x01\x01\x08\x01\x08\x01\x04\x01\x03\x01\x02\x01\x01\x01\x01\x01\x01\x08\x01\x02\x01\x01";

/// Table `t` of a BIGINT primary key `id` and a BIGINT column `v`.
const CREATE_TABLE: &[u8] =
    b"\0\0\0\0\0\0\0\x07\x01\x01t\x02\x02id\x03\0\0\0\0\0\x01v\x03\0\0\0\x01\x01\0\x01\0\0\0\0\0\0";

const CREATE_TABLE_FIELDS: &[u8] =
    b"\x08\x01\x02\x01\x03\x01\x02\x01\x01\x01\x02\x01\x02\x01\x01\x01\x01\x01\x01\x02\x01\x02";

const DROP_TABLE: &[u8] = b"\0\0\0\0\0\0\0\x07\x02\x01t";

const DROP_TABLE_FIELDS: &[u8] = b"\x08\x01\x02";

const CREATE_INDEX: &[u8] = b"\0\0\0\0\0\0\0\x07\x03\x01t\x02kv\0\x01\x01\0\x02cf";

const CREATE_INDEX_FIELDS: &[u8] = b"\x08\x01\x02\x03\x01\x01\x01\x04";

const DROP_INDEX: &[u8] = b"\0\0\0\0\0\0\0\x07\x04\x01t\x02kv";

const DROP_INDEX_FIELDS: &[u8] = b"\x08\x01\x02\x03";

/// Row (1, 2) inserted into table `t`.
const INSERT: &[u8] =
    b"\0\0\0\0\0\0\0\x07\0\0\0\0\x01\x01\x01t\0\x02\x01\0\0\0\0\0\0\0\x01\x01\0\0\0\0\0\0\0\x02";

/// The bytes that are written for the commit that was read.
fn written_again(alloc: Global, bytes: &[u8]) -> Result<Blob, DefAnswer> {
    let commit = read_commit(alloc, bytes)?;
    Ok(write_commit(alloc, &commit)?)
}

/// The first offence, or None where the bytes are a commit that is written as they stand.
fn offence_of(alloc: Global, bytes: &[u8]) -> Result<Option<u64>, Memory> {
    match written_again(alloc, bytes) {
        Ok(written) => Ok(if written.as_slice() == bytes {
            None
        } else {
            Some(u64::MAX)
        }),
        Err(DefAnswer::Malformed(at)) => Ok(Some(at)),
        Err(DefAnswer::Memory) => Err(Memory),
    }
}

/// Where the field begins that the byte at a place is part of.
fn field_at(sizes: &[u8], place: usize) -> usize {
    let mut start = 0usize;
    for size in sizes {
        let next = start.saturating_add(*size as usize);
        if place < next {
            return start;
        }
        start = next;
    }
    start
}

/// A cut offends at the field that isn't whole.
fn cuts_are_told(alloc: Global, bytes: &[u8], sizes: &[u8]) -> Result<bool, Memory> {
    for place in 0..bytes.len() {
        let offence = offence_of(alloc, &bytes[..place])?;
        if offence != Some(field_at(sizes, place) as u64) {
            return Ok(false);
        }
    }
    Ok(true)
}

/// With another byte at a place it is another commit, or offends there or behind.
fn is_told(
    alloc: Global,
    bytes: &[u8],
    sizes: &[u8],
    place: usize,
    add: u8,
) -> Result<bool, Memory> {
    let mut changed = bytes.to_vec(alloc)?;
    if place < changed.len() {
        changed[place] = changed[place].wrapping_add(add);
    }
    match offence_of(alloc, changed.as_slice())? {
        None => Ok(true),
        Some(at) => Ok(field_at(sizes, place) as u64 <= at && at <= bytes.len() as u64),
    }
}

fn changes_are_told(alloc: Global, bytes: &[u8], sizes: &[u8]) -> Result<bool, Memory> {
    for place in 0..bytes.len() {
        for add in [1u8, 0x7F, 0x80] {
            if !is_told(alloc, bytes, sizes, place, add)? {
                return Ok(false);
            }
        }
    }
    Ok(true)
}

/// It is a commit, and whatever is changed or cut is told.
fn is_exact(alloc: Global, bytes: &[u8], sizes: &[u8]) -> Result<bool, Memory> {
    Ok(
        offence_of(alloc, bytes)?.is_none()
            && cuts_are_told(alloc, bytes, sizes)?
            && changes_are_told(alloc, bytes, sizes)?,
    )
}

#[test]
fn commits_of_each_kind(rt: HostRuntime) -> Result<(), Fail> {
    let alloc = rt.alloc();
    for (bytes, sizes) in [
        (ROWS, ROWS_FIELDS),
        (CREATE_TABLE, CREATE_TABLE_FIELDS),
        (DROP_TABLE, DROP_TABLE_FIELDS),
        (CREATE_INDEX, CREATE_INDEX_FIELDS),
        (DROP_INDEX, DROP_INDEX_FIELDS),
    ] {
        assert_eq!(rt; is_exact(alloc, bytes, sizes), Ok(true));
    }
    Ok(())
}

#[test]
fn bytes_that_are_no_commit(rt: HostRuntime) -> Result<(), Fail> {
    let alloc = rt.alloc();
    assert_eq!(rt; offence_of(alloc, INSERT), Ok(None));
    for (bytes, at) in [
        (b"\0\0\0\0\0\0\0\x07\x05".as_slice(), 8u64),
        (b"\0\0\0\0\0\0\0\x07\0\0\0\0\0", 9),
        (b"\0\0\0\0\0\0\0\x07\0\0\0\0\x01\0", 13),
        (b"\0\0\0\0\0\0\0\x07\0\0\0\0\x01\x03\x01t\x04", 16),
        (b"\0\0\0\0\0\0\0\x07\x02\0", 9),
        (b"\0\0\0\0\0\0\0\x07\x02\x01\x80", 9),
        (b"\0\0\0\0\0\0\0\x07\x02\x01t\0", 11),
        (b"\0\0\0\0\0\0\0\x07\x04\x01t\x02k\0", 11),
    ] {
        assert_eq!(rt; offence_of(alloc, bytes), Ok(Some(at)));
    }
    Ok(())
}
