//! A secondary key is taken out of a table.

use crate::table::{bytes_with, table_with};
use mr_base::{DefAnswer, Memory};
use mr_schema::write_def;
use mr_types::TableDef;
use std::alloc::Global;

/// Whether the table without the secondary key at a place is written as these bytes.
fn is_without(alloc: Global, def: &TableDef, at: usize, bytes: &[u8]) -> Result<bool, Memory> {
    if at >= def.secondary.len() {
        return Ok(false);
    }
    let less = def.without_key(alloc, at)?;
    let written = write_def(alloc, &less)?;
    Ok(written.as_slice() == bytes)
}

/// Whether the table with these keys without one of them is the table with those left.
fn leaves(alloc: Global, keys: &[u8], at: usize, left: &[u8]) -> Result<bool, DefAnswer> {
    let expected = bytes_with(alloc, left)?;
    let def = table_with(alloc, keys)?;
    Ok(is_without(alloc, &def, at, expected.as_slice())?)
}

/// A unique key `k` over `v` in a family, and a key `j` over `v` and `x`.
const BOTH: &[u8] = b"\x02\x01k\x01\x01\x01\0\x05rev:e\x01j\0\x02\x01\x02\0\0";

const ONLY_K: &[u8] = b"\x01\x01k\x01\x01\x01\0\x05rev:e";

const ONLY_J: &[u8] = b"\x01\x01j\0\x02\x01\x02\0\0";

#[test]
fn one_key_is_taken_out(rt: HostRuntime) {
    assert!(rt; leaves(rt.alloc(), BOTH, 0, ONLY_J) == Ok(true));
    assert!(rt; leaves(rt.alloc(), BOTH, 1, ONLY_K) == Ok(true));
    assert!(rt; leaves(rt.alloc(), ONLY_K, 0, b"\0") == Ok(true));
}
