//! Entries of one table, and entries that were changed.

ghost use Rattle.std.specs.Prelude.{◌≡◌, ◌∷◌, [], IfOk, pos, true, false};
ghost use Rattle.mr_types.specs.declared.value.Value.TheVariants.{Number as ANumber, Text as AText};

use crate::tables::{changed, names};
use mr_base::{Blob, DefAnswer, Memory};
use mr_entry::{covers, entries_of, row_of_entry};
use mr_types::{Row, Value};
use sqlite_items::Items;
use std::alloc::Global;
use std::test::Fail;

/// The row of 3 and `Ab `.
fn three_and_ab(alloc: Global) -> Result<Row, Memory>
    ensures { IfOk result (λ row. row ≡ record { hidden = None; stamp = None; fields = ANumber (pos 3) ∷ AText (65 ∷ 98 ∷ 32 ∷ []) ∷ [] }) }
{
    let mut fields = Items::new(alloc);
    fields.push(Value::Number(3))?;
    fields.push(Value::Text(Blob::from_slice(alloc, b"Ab ")?))?;
    Ok(Row {
        hidden: None,
        stamp: None,
        fields,
    })
}

const NUMBERS: [u32; 2] = [256, 257];

/// The entry of the row in the secondary key.
const KEY: &[u8] =
    b"\x00\x00\x01\x01\x01\x41\x42\x20\x20\x20\x20\x20\x20\x02\x80\x00\x00\x00\x00\x00\x00\x03";

const VALUE: &[u8] = b"\x00\x01\x02";

fn is_three_and_ab(row: &Row) -> bool {
    match row.fields.as_slice() {
        [Value::Number(3), Value::Text(text)] => text.as_slice() == b"Ab ".as_slice(),
        _ => false,
    }
}

/// The entry of the row in the primary key.
const PRIMARY_KEY: &[u8] = b"\x00\x00\x01\x00\x80\x00\x00\x00\x00\x00\x00\x03";

const PRIMARY_VALUE: &[u8] = b"\x00\x00\x03Ab ";

/// Whether the row has this entry in a key.
fn is_entry(alloc: Global, index: usize, key: &[u8], value: &[u8]) -> Result<bool, Memory> {
    let def = names(alloc)?;
    let row = three_and_ab(alloc)?;
    let (found, behind) = entries_of(alloc, &def, &NUMBERS, &row, index)?;
    Ok(found.as_slice() == key && behind.as_slice() == value)
}

/// Whether the row is read from an entry.
fn is_row(alloc: Global, index: usize, key: &[u8], value: &[u8]) -> Result<bool, DefAnswer> {
    let def = names(alloc)?;
    let row = row_of_entry(alloc, &def, index, key, value)?;
    Ok(is_three_and_ab(&row))
}

#[test]
fn secondary_entry_with_unpack_data(rt: HostRuntime) -> Result<(), Fail> {
    assert!(rt; is_entry(rt.alloc(), 1, KEY, VALUE)?);
    assert!(rt; is_row(rt.alloc(), 1, KEY, VALUE)?);
    assert!(rt; is_entry(rt.alloc(), 0, PRIMARY_KEY, PRIMARY_VALUE)?);
    assert!(rt; is_row(rt.alloc(), 0, PRIMARY_KEY, PRIMARY_VALUE)?);
    Ok(())
}

const NEEDED: [(usize, u64, bool); 5] = [
    (0, 0xFFFF_FFFF_FFFF_FFFF, true),
    (1, 3, true),
    (1, 0, true),
    (1, 4, false),
    (2, 2, false),
];

#[test]
fn what_a_key_covers(rt: HostRuntime) -> Result<(), Fail> {
    let def = names(rt.alloc())?;
    for (index, needed, wanted) in NEEDED {
        assert_eq!(rt; covers(&def, index, needed), wanted, "{needed} of {index}");
    }
    Ok(())
}

/// A place of the key and the value, a byte that stands there instead, and the offending place;
/// 255 where another row is read. Another program worked them out.
const CHANGES: &[u8] = b"\
    \x00\x01\xff\x00\x20\xff\x00\x80\xff\x01\x01\xff\x01\x20\xff\x01\x80\xff\x02\x02\xff\x02\x21\xff\
    \x02\x81\xff\x03\x02\xff\x03\x21\xff\x03\x81\xff\x04\x02\x04\x04\x21\x04\x04\x81\x04\x05\x42\xff\
    \x05\x61\x05\x05\xc1\x05\x06\x43\xff\x06\x62\x05\x06\xc2\x05\x07\x21\xff\x07\x00\xff\x07\xa0\x05\
    \x08\x21\xff\x08\x00\xff\x08\xa0\x05\x09\x21\xff\x09\x00\xff\x09\xa0\x05\x0a\x21\xff\x0a\x00\xff\
    \x0a\xa0\x05\x0b\x21\xff\x0b\x00\xff\x0b\xa0\x05\x0c\x21\xff\x0c\x00\xff\x0c\xa0\x05\x0d\x03\x0e\
    \x0d\x22\x05\x0d\x82\x05\x0e\x81\xff\x0e\xa0\xff\x0e\x00\xff\x0f\x01\xff\x0f\x20\xff\x0f\x80\xff\
    \x10\x01\xff\x10\x20\xff\x10\x80\xff\x11\x01\xff\x11\x20\xff\x11\x80\xff\x12\x01\xff\x12\x20\xff\
    \x12\x80\xff\x13\x01\xff\x13\x20\xff\x13\x80\xff\x14\x01\xff\x14\x20\xff\x14\x80\xff\x15\x04\xff\
    \x15\x23\xff\x15\x83\xff\x16\x01\x16\x16\x20\x16\x16\x80\x16\x17\x02\xff\x17\x21\x16\x17\x81\x16\
    \x18\x03\xff\x18\x22\x18\x18\x82\x18";

fn offence(read: Result<Row, DefAnswer>) -> u64 {
    match read {
        Ok(_) => 255,
        Err(DefAnswer::Malformed(at)) => at,
        Err(DefAnswer::Memory) => 254,
    }
}

/// Where an entry of the secondary key offends.
fn offence_in(alloc: Global, key: &[u8], value: &[u8]) -> Result<u64, Memory> {
    let def = names(alloc)?;
    Ok(offence(row_of_entry(alloc, &def, 1, key, value)))
}

/// Where the row's entry offends with another byte at a place of its key and value.
fn offence_of_change(alloc: Global, at: usize, byte: u8) -> Result<u64, Memory> {
    if at < KEY.len() {
        let key = changed(alloc, KEY, at, byte)?;
        offence_in(alloc, key.as_slice(), VALUE)
    } else {
        let value = changed(alloc, VALUE, at - KEY.len(), byte)?;
        offence_in(alloc, KEY, value.as_slice())
    }
}

#[test]
fn changed_entries(rt: HostRuntime) -> Result<(), Fail> {
    for change in CHANGES.chunks(3) {
        if let [at, byte, wanted] = change {
            let found = offence_of_change(rt.alloc(), *at as usize, *byte)?;
            assert_eq!(rt; found, *wanted as u64, "{at} is {byte}");
        }
    }
    Ok(())
}
