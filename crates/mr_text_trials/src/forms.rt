//! A worked definition, and bytes that are none.

use mr_base::{Blob, DefAnswer, Memory};
use mr_schema::{read_def, write_def};
use std::alloc::Global;
use std::test::Fail;

/// Table `t` of a BIGINT primary key `id`, a VARCHAR column `v` with the default `a` and a unique
/// key `k` over it, and a stamp in `x` that lives for 7 seconds.
const DEFINITION: &[u8] =
    b"\x01t\x03\x02id\x03\0\0\0\0\0\x01v\x05\0\x14\x02\x01\x01\x03\0\x01a\x01x\x04\0\0\0\0\0\x01\0\0\0\x01\x01k\x01\x01\x01\0\x05rev:e\0\x18ttl_duration=7;ttl_col=x";

/// The sizes of its fields.
const FIELDS: &[u8] =
    b"\x02\x01\x03\x01\x02\x01\x01\x01\x02\x01\x02\x01\x01\x01\x01\x03\x02\x01\x02\x01\x01\x01\x01\x01\x02\x01\x02\x01\x01\x01\x07\x1A";

/// The bytes that are written for the definition that was read.
fn written_again(alloc: Global, bytes: &[u8]) -> Result<Blob, DefAnswer> {
    let def = read_def(alloc, bytes)?;
    Ok(write_def(alloc, &def)?)
}

/// The first offence, or None where the bytes are a definition that is written as they stand.
fn offence_of(alloc: Global, bytes: &[u8]) -> Result<Option<u64>, Memory> {
    match written_again(alloc, bytes) {
        Ok(written) => Ok(if written.as_slice() == bytes {
            None
        } else {
            Some(u64::MAX)
        }),
        Err(DefAnswer::Malformed(at)) => Ok(Some(at)),
        Err(DefAnswer::Memory) => Err(Memory),
    }
}

/// Where the field begins that the byte at a place is part of.
fn field_at(sizes: &[u8], place: usize) -> usize {
    let mut start = 0usize;
    for size in sizes {
        let next = start.saturating_add(*size as usize);
        if place < next {
            return start;
        }
        start = next;
    }
    start
}

/// A cut offends at the field that isn't whole.
fn cuts_are_told(alloc: Global, bytes: &[u8], sizes: &[u8]) -> Result<bool, Memory> {
    for place in 0..bytes.len() {
        let offence = offence_of(alloc, &bytes[..place])?;
        if offence != Some(field_at(sizes, place) as u64) {
            return Ok(false);
        }
    }
    Ok(true)
}

/// With another byte at a place it is another definition, or offends there or behind.
fn is_told(
    alloc: Global,
    bytes: &[u8],
    sizes: &[u8],
    place: usize,
    add: u8,
) -> Result<bool, Memory> {
    let mut changed = bytes.to_vec(alloc)?;
    if place < changed.len() {
        changed[place] = changed[place].wrapping_add(add);
    }
    match offence_of(alloc, changed.as_slice())? {
        None => Ok(true),
        Some(at) => Ok(field_at(sizes, place) as u64 <= at && at <= bytes.len() as u64),
    }
}

fn changes_are_told(alloc: Global, bytes: &[u8], sizes: &[u8]) -> Result<bool, Memory> {
    for place in 0..bytes.len() {
        for add in [1u8, 0x7F, 0x80] {
            if !is_told(alloc, bytes, sizes, place, add)? {
                return Ok(false);
            }
        }
    }
    Ok(true)
}

/// How long the rows of the table live, and the column of their stamp.
fn ttl_of(alloc: Global, bytes: &[u8]) -> Result<Option<(u64, Option<u8>)>, DefAnswer> {
    let def = read_def(alloc, bytes)?;
    Ok(match def.ttl {
        None => None,
        Some(ttl) => Some((ttl.duration, ttl.column)),
    })
}

#[test]
fn a_definition_with_all_parts(rt: HostRuntime) -> Result<(), Fail> {
    let alloc = rt.alloc();
    assert_eq!(rt; offence_of(alloc, DEFINITION), Ok(None));
    assert_eq!(rt; ttl_of(alloc, DEFINITION), Ok(Some((7, Some(2)))));
    assert_eq!(rt; cuts_are_told(alloc, DEFINITION, FIELDS), Ok(true));
    assert_eq!(rt; changes_are_told(alloc, DEFINITION, FIELDS), Ok(true));
    Ok(())
}

#[test]
fn bytes_that_are_no_definition(rt: HostRuntime) -> Result<(), Fail> {
    let alloc = rt.alloc();
    for (bytes, at) in [
        // a name of no byte, a kind 7, a length and a collation of a number
        (b"\0".as_slice(), 0u64),
        (b"\x01t\x01\x01a\x07", 5),
        (b"\x01t\x01\x01a\x01\0\x01\0\0\0", 6),
        (b"\x01t\x01\x01a\x01\0\0\x01\0\0", 8),
        // collation 3, a place at the count of columns, a count of keys without a key
        (b"\x01t\x01\x01a\x05\0\x09\x03", 8),
        (b"\x01t\x01\x01a\x01\0\0\0\0\0\x01\x01", 12),
        (b"\x01t\x01\x01a\x01\0\0\0\0\0\0\0\0\x01", 15),
        // a comment that is refused, and a byte left over
        (b"\x01t\x01\x01a\x01\0\0\0\0\0\0\0\0\0\0\x09ttl_col=a", 15),
        (b"\x01t\x01\x01a\x01\0\0\0\0\0\0\0\0\0\0\0\0", 17),
    ] {
        assert_eq!(rt; offence_of(alloc, bytes), Ok(Some(at)));
    }
    Ok(())
}
