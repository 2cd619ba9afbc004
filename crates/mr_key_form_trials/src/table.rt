//! The table that the tests stand on.

use mr_base::{Blob, DefAnswer, Memory};
use mr_schema::read_def;
use mr_types::TableDef;
use std::alloc::Global;

/// Table `t` of a BIGINT primary key `id`, a VARCHAR column `v` with the default `a` and a stamp in
/// `x`, up to the count of its secondary keys.
const HEAD: &[u8] =
    b"\x01t\x03\x02id\x03\0\0\0\0\0\x01v\x05\0\x14\x02\x01\x01\x03\0\x01a\x01x\x04\0\0\0\0\0\x01\0\0\0";

/// Its comment behind the two bytes of its length.
const TAIL: &[u8] = b"\0\x18ttl_duration=7;ttl_col=x";

/// The bytes of the table with these secondary keys: their count, and each of them as bytes.
pub(crate) fn bytes_with(alloc: Global, keys: &[u8]) -> Result<Blob, Memory> {
    let mut bytes = HEAD.to_vec(alloc)?;
    bytes.extend_from_slice(keys)?;
    bytes.extend_from_slice(TAIL)?;
    Ok(Blob::from_vec(bytes))
}

/// The table with these secondary keys.
pub(crate) fn table_with(alloc: Global, keys: &[u8]) -> Result<TableDef, DefAnswer> {
    let bytes = bytes_with(alloc, keys)?;
    read_def(alloc, bytes.as_slice())
}
