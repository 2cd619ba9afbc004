//! A further key that a text asks for.

use crate::table::table_with;
use mr_base::{Blob, Memory};
use mr_schema::{check_key, write_key};
use mr_types::{KeyText, NameList, Refused, TableDef};
use std::alloc::Global;

/// A key of this name over these columns, which stand with commas between them.
fn text_of(alloc: Global, name: &[u8], columns: &[u8]) -> Result<KeyText, Memory> {
    let mut names = NameList::new(alloc);
    'naming: for column in columns.split(|byte| *byte == b',') {
        names.push(Blob::from_slice(alloc, column)?)?;
    }
    Ok(KeyText {
        name: Blob::from_slice(alloc, name)?,
        primary: false,
        unique: false,
        columns: names,
        comment: Blob::from_slice(alloc, b"")?,
    })
}

/// The bytes of the checked key. A table of more than 255 columns isn't tried.
fn checked(alloc: Global, def: &TableDef, key: &KeyText) -> Result<Blob, Refused> {
    if def.columns.len() > 255 {
        return Err(Refused::Memory);
    }
    let index = check_key(alloc, def, key)?;
    let mut bytes = Vec::new(alloc);
    write_key(&mut bytes, &index)?;
    Ok(Blob::from_vec(bytes))
}

/// The bytes of the key where it is checked beside a unique key `k` over `v`.
fn beside_k(alloc: Global, key: &KeyText) -> Result<Blob, Refused> {
    match table_with(alloc, b"\x01\x01k\x01\x01\x01\0\x05rev:e") {
        Ok(def) => checked(alloc, &def, key),
        Err(_) => Err(Refused::Memory),
    }
}

/// The bytes of the key of this name over these columns.
fn answered(alloc: Global, name: &[u8], columns: &[u8]) -> Result<Blob, Refused> {
    let key = text_of(alloc, name, columns)?;
    beside_k(alloc, &key)
}

/// Whether the key is given, and as these bytes.
fn gives(alloc: Global, name: &[u8], columns: &[u8], bytes: &[u8]) -> bool {
    match answered(alloc, name, columns) {
        Ok(key) => key.as_slice() == bytes,
        Err(_) => false,
    }
}

/// The number of the refusal, and 0 where the key is given or memory is wanting.
fn refusal(alloc: Global, name: &[u8], columns: &[u8]) -> u16 {
    match answered(alloc, name, columns) {
        Err(Refused::Sql(code)) => code,
        _ => 0,
    }
}

#[test]
fn keys_with_their_places(rt: HostRuntime) {
    assert!(rt; gives(rt.alloc(), b"j", b"v,x", b"\x01j\0\x02\x01\x02\0\0"));
    assert!(rt; gives(rt.alloc(), b"j", b"X,ID", b"\x01j\0\x02\x02\0\0\0"));
}

#[test]
fn keys_that_are_refused(rt: HostRuntime) {
    assert!(rt; refusal(rt.alloc(), b"K", b"v") == 1061);
    assert!(rt; refusal(rt.alloc(), b"j", b"w") == 1072);
    assert!(rt; refusal(rt.alloc(), b"j", b"v,V") == 1060);
}
