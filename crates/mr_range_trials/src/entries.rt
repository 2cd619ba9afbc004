//! Entries that are read where they lie.

use crate::tables::names;
use mr_base::Memory;
use mr_entry::{EntryRef, places_of, primary_key_of_entry};
use mr_types::FieldRef;
use std::alloc::Global;
use std::test::Fail;

/// The entry of the row of 3 and `Ab ` in the secondary key.
const KEY: &[u8] =
    b"\x00\x00\x01\x01\x01\x41\x42\x20\x20\x20\x20\x20\x20\x02\x80\x00\x00\x00\x00\x00\x00\x03";

const VALUE: &[u8] = b"\x00\x01\x02";

/// Its primary key.
const PRIMARY_KEY: &[u8] = b"\x00\x00\x01\x00\x80\x00\x00\x00\x00\x00\x00\x03";

/// Whether the entry holds the number and a text of three bytes where they lie.
fn is_lent(entry: &EntryRef<'_>) -> bool {
    let number = matches!(entry.field(0), FieldRef::Number(3));
    match entry.field(1) {
        FieldRef::Pieces(text) => number && text.len() == 3,
        _ => false,
    }
}

/// Whether the row's entry is read where it lies.
fn is_held(alloc: Global, key: &[u8], value: &[u8]) -> Result<bool, Memory> {
    let def = names(alloc)?;
    let places = places_of(alloc, &def, 1)?;
    match EntryRef::decode(&def, places.as_slice(), key, value) {
        Ok(entry) => Ok(is_lent(&entry)),
        Err(_) => Ok(false),
    }
}

#[test]
fn an_entry_where_it_lies(rt: HostRuntime) -> Result<(), Fail> {
    assert!(rt; is_held(rt.alloc(), KEY, VALUE)?);
    assert!(rt; !is_held(rt.alloc(), KEY, b"")?);
    Ok(())
}

/// Whether this primary key is made of an entry.
fn is_made(alloc: Global, entry: &EntryRef<'_>, wanted: &[u8]) -> Result<bool, Memory> {
    let mut out = Vec::new(alloc);
    primary_key_of_entry(entry, 256, &mut out)?;
    Ok(out.as_slice() == wanted)
}

/// Whether the entry leads to this primary key.
fn leads_to(alloc: Global, key: &[u8], value: &[u8], wanted: &[u8]) -> Result<bool, Memory> {
    let def = names(alloc)?;
    let places = places_of(alloc, &def, 1)?;
    match EntryRef::decode(&def, places.as_slice(), key, value) {
        Ok(entry) => is_made(alloc, &entry, wanted),
        Err(_) => Ok(false),
    }
}

#[test]
fn an_entry_leads_to_its_primary_key(rt: HostRuntime) -> Result<(), Fail> {
    assert!(rt; leads_to(rt.alloc(), KEY, VALUE, PRIMARY_KEY)?);
    Ok(())
}
