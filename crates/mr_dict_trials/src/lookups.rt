//! Dictionaries of a few entries, and what they tell.

use mr_base::{Blob, Memory};
use mr_dict::{Dict, DictEntry};
use mr_types::IndexDef;
use std::alloc::Global;

fn put_family(alloc: Global, dict: &mut Dict, family: u32, name: &[u8]) -> Result<(), Memory> {
    let name = Blob::from_slice(alloc, name)?;
    dict.put(DictEntry::Family { family, name })
}

fn put_building(alloc: Global, dict: &mut Dict, number: u32, table: &[u8]) -> Result<(), Memory> {
    let key = IndexDef {
        name: Blob::from_slice(alloc, b"k")?,
        columns: Blob::from_slice(alloc, b"\0")?,
        unique: false,
        comment: Blob::from_slice(alloc, b"")?,
    };
    let table = Blob::from_slice(alloc, table)?;
    let filled = Blob::from_slice(alloc, b"")?;
    dict.put(DictEntry::Building {
        number,
        table,
        key,
        family: 2,
        filled,
    })
}

/// Two families, two indexes, a dropped and two building ones, in no order.
fn some_dict(alloc: Global) -> Result<Dict, Memory> {
    let mut dict = Dict::new(alloc);
    put_building(alloc, &mut dict, 260, b"u")?;
    put_family(alloc, &mut dict, 3, b"rev:x")?;
    dict.put(DictEntry::Index {
        number: 256,
        family: 1,
    })?;
    put_building(alloc, &mut dict, 259, b"t")?;
    dict.put(DictEntry::Dropped {
        number: 258,
        family: 3,
    })?;
    put_family(alloc, &mut dict, 2, b"cf")?;
    dict.put(DictEntry::Index {
        number: 257,
        family: 3,
    })?;
    Ok(dict)
}

/// A place or a number as a letter from `0` on, and `-` for none.
fn letter(number: Option<u64>) -> u8 {
    match number {
        Some(number) if number < 80 => b'0' + number as u8,
        Some(_) => b'!',
        None => b'-',
    }
}

fn place(at: Option<usize>) -> u8 {
    letter(at.map(|at| at as u64))
}

fn family(number: Option<u32>) -> u8 {
    letter(number.map(|number| number as u64))
}

/// Where the entries of a kind begin.
fn first_of(alloc: Global, kind: u32) -> Result<u8, Memory> {
    let dict = some_dict(alloc)?;
    Ok(place(dict.first_of(kind)))
}

#[test]
fn kinds_stand_behind_one_another(rt: HostRuntime) {
    let places = b"--0245----";
    for kind in 0..10u32 {
        assert!(rt; first_of(rt.alloc(), kind) == Ok(places[kind as usize]));
    }
}

/// A name, the number of its family, and the place of the building index of a table of this name.
const NAMES: &[u8] = b"__system__/0-;default/1-;cf/2-;rev:x/3-;CF/--;t/-5;u/-6;T/--;/--";

fn named(alloc: Global, name: &[u8], letters: &[u8]) -> Result<bool, Memory> {
    let dict = some_dict(alloc)?;
    Ok(
        [
            family(dict.family_number(name)),
            place(dict.building_on(name)),
        ]
        .as_slice()
            == letters,
    )
}

fn is_name_row(alloc: Global, row: &[u8]) -> Result<bool, Memory> {
    let mut parts = row.split(|byte| *byte == b'/');
    let name = parts.next().unwrap_or(&[]);
    let letters = parts.next().unwrap_or(&[]);
    named(alloc, name, letters)
}

#[test]
fn families_and_building_indexes(rt: HostRuntime) {
    for row in NAMES.split(|byte| *byte == b';') {
        assert!(rt; is_name_row(rt.alloc(), row) == Ok(true), "{row:?}");
    }
}

/// The family of an index, and the place of the dropped one of that number.
fn index_family(alloc: Global, number: u32) -> Result<u8, Memory> {
    let dict = some_dict(alloc)?;
    Ok(family(dict.index_family(number)))
}

fn dropped(alloc: Global, number: u32) -> Result<u8, Memory> {
    let dict = some_dict(alloc)?;
    Ok(place(dict.find(4, &number.to_be_bytes())))
}

#[test]
fn numbers(rt: HostRuntime) {
    let families = b"-13---";
    let places = b"---4--";
    for at in 0..6u32 {
        assert!(rt; index_family(rt.alloc(), 255 + at) == Ok(families[at as usize]));
        assert!(rt; dropped(rt.alloc(), 255 + at) == Ok(places[at as usize]));
    }
}

/// The family of an index, and how many entries there are, once it was put and an entry was taken out.
fn changed(alloc: Global, number: u32, out: usize) -> Result<(u8, usize), Memory> {
    let mut dict = some_dict(alloc)?;
    dict.put(DictEntry::Index { number, family: 9 })?;
    if out < dict.count() {
        dict.remove(out);
    }
    Ok((family(dict.index_family(number)), dict.count()))
}

#[test]
fn entries_come_and_go(rt: HostRuntime) {
    assert!(rt; changed(rt.alloc(), 256, 6) == Ok((b'9', 6)));
    assert!(rt; changed(rt.alloc(), 256, 0) == Ok((b'-', 6)));
    assert!(rt; changed(rt.alloc(), 255, 1) == Ok((b'9', 7)));
    assert!(rt; changed(rt.alloc(), 300, 8) == Ok((b'9', 8)));
}
