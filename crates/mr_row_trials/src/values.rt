//! Entries of two tables, and entries that were changed.

ghost use Rattle.std.specs.Prelude.{◌≡◌, ◌∷◌, [], IfOk, pos, true, false};
ghost use Rattle.mr_types.specs.declared.value.Value.TheVariants.{Null as ANull, Number as ANumber, Text as AText};

use crate::tables::{changed, names, stamped};
use mr_base::{Blob, Malformed, Memory};
use mr_rowval::{RowRef, encode_row};
use mr_types::{FieldRef, Pieces, Row, Value};
use sqlite_items::Items;
use std::alloc::Global;
use std::test::Fail;

fn offence(decoded: Result<RowRef<'_>, Malformed>) -> u64 {
    match decoded {
        Ok(_) => 255,
        Err(Malformed(at)) => at,
    }
}

/// What the tests show of a row, and whether memory was wanting for a part of it.
#[derive(Drop)]
struct Shown {
    text: Vec<u8>,
    is_cut: bool,
}

impl Shown {
    fn put(&mut self, bytes: &[u8]) {
        if self.text.extend_from_slice(bytes).is_err() {
            self.is_cut = true;
        }
    }

    fn put_number(&mut self, number: i128) {
        match number.to_string(*self.text.allocator()) {
            Ok(digits) => self.put(digits.as_bytes()),
            Err(_) => self.is_cut = true,
        }
    }

    fn put_pieces(&mut self, pieces: &Pieces<'_>) {
        for at in 0..pieces.len() {
            self.put(&[pieces.byte(at)]);
        }
    }

    fn put_field(&mut self, field: &FieldRef<'_>) {
        match field {
            FieldRef::Null => self.put(b"-"),
            FieldRef::Number(number) => self.put_number(*number),
            FieldRef::Slice(bytes) => self.put(bytes),
            FieldRef::Pieces(pieces) => self.put_pieces(pieces),
        }
        self.put(b"|");
    }

    fn put_mark(&mut self, mark: Option<u64>) {
        match mark {
            None => self.put(b"-"),
            Some(number) => self.put_number(number as i128),
        }
        self.put(b"|");
    }

    /// The hidden number, the stamp and the first four fields, or where the pair offends.
    fn put_row(&mut self, decoded: Result<RowRef<'_>, Malformed>) {
        match decoded {
            Ok(row) => {
                self.put_mark(row.hidden());
                self.put_mark(row.stamp());
                for column in 0..4u8 {
                    self.put_field(&row.field(column));
                }
            }
            Err(Malformed(at)) => self.put_number(at as i128),
        }
    }
}

/// Whether this is shown of an entry in one of the two tables.
fn is_shown(
    alloc: Global,
    is_stamped: bool,
    key: &[u8],
    value: &[u8],
    wanted: &str,
) -> Result<bool, Memory> {
    let def = if is_stamped {
        stamped(alloc)?
    } else {
        names(alloc)?
    };
    let mut shown = Shown {
        text: Vec::new(alloc),
        is_cut: false,
    };
    shown.put_row(RowRef::decode(&def, key, value));
    Ok(!shown.is_cut && shown.text.as_slice() == wanted.as_bytes())
}

/// The number 2 in the primary key of index 256.
const TWO: &[u8] = b"\x00\x00\x01\x00\x80\x00\x00\x00\x00\x00\x00\x02";

/// Values of the row, parted by `~`, and what is shown of them: the text `Al`, NULL, and values that offend.
const VALUES: &str = "\
\x00\x00\x02Al=-|-|2|Al|-|-|~\x01=-|-|2|-|-|-|~\x02=12~\x03=12~=12~\x00\x00\x02A=13~\x01x=13";

#[test]
fn primary_value_and_null_bits(rt: HostRuntime) -> Result<(), Fail> {
    for row in VALUES.split('~') {
        if let Some((value, wanted)) = row.split_once('=') {
            assert!(rt;
                is_shown(rt.alloc(), false, TWO, value.as_bytes(), wanted)?,
                "{wanted}"
            );
        }
    }
    assert!(rt; is_shown(rt.alloc(), false, TWO, b"\x00\x00\x02A\x80", "13")?);
    assert!(rt; is_shown(rt.alloc(), false, &TWO[..11], b"\x02", "4")?);
    Ok(())
}

/// Index 256 with the text `Ab1 `, and its value: the stamp 9, no NULL, -2, `x`, 9.
const KEY: &[u8] = b"\x00\x00\x01\x00AB1     \x02";

const VALUE: &[u8] =
    b"\x00\x00\x00\x00\x00\x00\x00\x09\x00\x00\x01\x02\xff\xff\xff\xfe\x00\x01x\x00\x00\x00\x00\x00\x00\x00\x09";

#[test]
fn a_row_with_all_parts(rt: HostRuntime) -> Result<(), Fail> {
    assert!(rt; is_shown(rt.alloc(), true, KEY, VALUE, "-|9|-2|Ab1 |x|9|")?);
    Ok(())
}

/// A place of the key and the value, a byte that stands there instead, and the offending place;
/// 255 where another row is read. Another program worked them out.
const CHANGES: &[u8] = b"\
    \x00\x01\xff\x00\x20\xff\x00\x80\xff\x01\x01\xff\x01\x20\xff\x01\x80\xff\x02\x02\xff\x02\x21\xff\
    \x02\x81\xff\x03\x01\xff\x03\x20\xff\x03\x80\xff\x04\x42\xff\x04\x61\x04\x04\xc1\x04\x05\x43\xff\
    \x05\x62\x04\x05\xc2\x04\x06\x32\xff\x06\x11\xff\x06\xb1\x04\x07\x21\x16\x07\x00\x16\x07\xa0\x04\
    \x08\x21\x04\x08\x00\x04\x08\xa0\x04\x09\x21\x04\x09\x00\x04\x09\xa0\x04\x0a\x21\x04\x0a\x00\x04\
    \x0a\xa0\x04\x0b\x21\x04\x0b\x00\x04\x0b\xa0\x04\x0c\x03\x0d\x0c\x22\x04\x0c\x04\x04\x0d\x01\x0d\
    \x0d\x20\x0d\x0d\x80\x0d\x0e\x01\x0d\x0e\x20\x0d\x0e\x80\x0d\x0f\x01\x0d\x0f\x20\x0d\x0f\x80\x0d\
    \x10\x01\x0d\x10\x20\x0d\x10\x80\x0d\x11\x01\x0d\x11\x20\x0d\x11\x80\x0d\x12\x01\x0d\x12\x20\x0d\
    \x12\x80\x0d\x13\x01\x0d\x13\x20\x0d\x13\x80\x0d\x14\x0a\x0d\x14\x29\x0d\x14\x89\x0d\x15\x01\x19\
    \x15\x20\x15\x15\x80\x15\x16\x01\x16\x16\x20\x16\x16\x80\x16\x17\x02\x16\x17\x21\x16\x17\x81\x16\
    \x18\x03\xff\x18\x22\x18\x18\x04\x18\x19\x00\xff\x19\xdf\xff\x19\x7f\xff\x1a\x00\xff\x1a\xdf\xff\
    \x1a\x7f\xff\x1b\x00\xff\x1b\xdf\xff\x1b\x7f\xff\x1c\xff\xff\x1c\xde\xff\x1c\x7e\xff\x1d\x01\x1d\
    \x1d\x20\x1d\x1d\x80\x1d\x1e\x02\x21\x1e\x21\x1d\x1e\x81\x1d\x1f\x79\xff\x1f\x58\xff\x1f\xf8\xff\
    \x20\x01\x0d\x20\x20\x0d\x20\x80\x0d\x21\x01\x0d\x21\x20\x0d\x21\x80\x0d\x22\x01\x0d\x22\x20\x0d\
    \x22\x80\x0d\x23\x01\x0d\x23\x20\x0d\x23\x80\x0d\x24\x01\x0d\x24\x20\x0d\x24\x80\x0d\x25\x01\x0d\
    \x25\x20\x0d\x25\x80\x0d\x26\x01\x0d\x26\x20\x0d\x26\x80\x0d\x27\x0a\x0d\x27\x29\x0d\x27\x89\x0d";

/// Where an entry of the table offends.
fn offence_in(alloc: Global, key: &[u8], value: &[u8]) -> Result<u64, Memory> {
    let def = stamped(alloc)?;
    Ok(offence(RowRef::decode(&def, key, value)))
}

/// Where the entry offends with another byte at a place of its key and value.
fn offence_of_change(alloc: Global, at: usize, byte: u8) -> Result<u64, Memory> {
    if at < KEY.len() {
        let key = changed(alloc, KEY, at, byte)?;
        offence_in(alloc, key.as_slice(), VALUE)
    } else {
        let value = changed(alloc, VALUE, at - KEY.len(), byte)?;
        offence_in(alloc, KEY, value.as_slice())
    }
}

#[test]
fn changed_entries(rt: HostRuntime) -> Result<(), Fail> {
    for change in CHANGES.chunks(3) {
        if let [at, byte, wanted] = change {
            let found = offence_of_change(rt.alloc(), *at as usize, *byte)?;
            assert_eq!(rt; found, *wanted as u64, "{at} is {byte}");
        }
    }
    Ok(())
}

/// The row of 2 and NULL.
fn two_and_null(alloc: Global) -> Result<Row, Memory>
    ensures { IfOk result (λ row. row ≡ record { hidden = None; stamp = None; fields = ANumber (pos 2) ∷ ANull ∷ [] }) }
{
    let mut fields = Items::new(alloc);
    fields.push(Value::Number(2))?;
    fields.push(Value::Null)?;
    Ok(Row {
        hidden: None,
        stamp: None,
        fields,
    })
}

/// The row of 2 and `Al`.
fn two_and_al(alloc: Global) -> Result<Row, Memory>
    ensures { IfOk result (λ row. row ≡ record { hidden = None; stamp = None; fields = ANumber (pos 2) ∷ AText (65 ∷ 108 ∷ []) ∷ [] }) }
{
    let mut fields = Items::new(alloc);
    fields.push(Value::Number(2))?;
    fields.push(Value::Text(Blob::from_slice(alloc, b"Al")?))?;
    Ok(Row {
        hidden: None,
        stamp: None,
        fields,
    })
}

#[test]
fn values_of_two_rows(rt: HostRuntime) -> Result<(), Fail> {
    let def = names(rt.alloc())?;
    let value = encode_row(rt.alloc(), &def, &two_and_null(rt.alloc())?)?;
    assert_eq!(rt; value.as_slice(), b"\x01".as_slice());
    let value = encode_row(rt.alloc(), &def, &two_and_al(rt.alloc())?)?;
    assert_eq!(rt; value.as_slice(), b"\x00\x00\x02Al".as_slice());
    Ok(())
}
