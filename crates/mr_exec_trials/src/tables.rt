//! What the tests share: a table, its rows from a text, and the rows of a reply as a text.

use mr_base::{Blob, Memory, Stop};
use mr_bound::BoundSelect;
use mr_exec::{ListRows, are_fit, select};
use mr_spec::RowList;
use mr_types::{Collation, ColumnDef, ColumnType, IndexDef, Kind, Row, TableDef, Value, ValueList};
use sqlite_items::Items;
use std::alloc::Global;

fn column_of(alloc: Global, kind: Kind, nullable: bool) -> Result<ColumnDef, Memory> {
    Ok(ColumnDef {
        name: Blob::from_slice(alloc, b"")?,
        ty: ColumnType { kind, nullable },
        default: None,
    })
}

fn key_of(alloc: Global, places: &[u8]) -> Result<IndexDef, Memory> {
    Ok(IndexDef {
        name: Blob::from_slice(alloc, b"")?,
        columns: Blob::from_slice(alloc, places)?,
        unique: true,
        comment: Blob::from_slice(alloc, b"")?,
    })
}

/// A number, a number that may be NULL, and a text, with the primary key over the columns at these
/// places.
pub fn table(alloc: Global, primary: &[u8]) -> Result<TableDef, Memory> {
    let mut columns = Items::new(alloc);
    columns.push(column_of(alloc, Kind::BigInt, false)?)?;
    columns.push(column_of(alloc, Kind::Int, true)?)?;
    columns.push(column_of(alloc, Kind::VarChar(20, Collation::Ci), false)?)?;
    Ok(TableDef::new(
        Blob::from_slice(alloc, b"t")?,
        columns,
        key_of(alloc, primary)?,
        Items::new(alloc),
        Blob::from_slice(alloc, b"")?,
        None,
    ))
}

/// A digit's number, NULL for anything else.
fn digit(byte: u8) -> Value {
    if byte.is_ascii_digit() {
        Value::Number((byte - b'0') as i128)
    } else {
        Value::Null
    }
}

/// Two digits and a letter; the first digit is the hidden number too.
fn row_of(alloc: Global, first: u8, second: u8, letter: u8) -> Result<Row, Memory> {
    let mut fields = ValueList::new(alloc);
    fields.push(digit(first))?;
    fields.push(digit(second))?;
    fields.push(Value::Text(Blob::from_slice(alloc, &[letter])?))?;
    Ok(Row {
        hidden: Some(first as u64),
        stamp: None,
        fields,
    })
}

/// Rows of three bytes each, with a space between them.
fn rows_of(alloc: Global, text: &[u8]) -> Result<RowList, Memory> {
    let mut rows = RowList::new(alloc);
    for word in text.split(|byte| *byte == b' ') {
        if let [first, second, letter] = word {
            rows.push(row_of(alloc, *first, *second, *letter)?)?;
        }
    }
    Ok(rows)
}

/// A digit for a number, a letter for a text.
fn letter_of(value: &Value) -> u8 {
    match value {
        Value::Null => b'-',
        Value::Number(number) => match u8::try_from(*number) {
            Ok(digit) if digit < 10 => b'0' + digit,
            _ => b'?',
        },
        Value::Text(text) | Value::Bytes(text) => match text.as_slice() {
            [letter] => *letter,
            _ => b'?',
        },
    }
}

fn write_row(out: &mut Vec<u8>, values: &[Value]) -> Result<(), Memory> {
    for value in values {
        if out.push(letter_of(value)).is_err() {
            return Err(Memory);
        }
    }
    Ok(())
}

/// The rows of a reply, a byte a value, with a space between them.
fn text_of(alloc: Global, rows: &[ValueList]) -> Result<Blob, Memory> {
    let mut out = Vec::new(alloc);
    for (i, row) in rows.iter().enumerate() {
        if i > 0 && out.push(b' ').is_err() {
            return Err(Memory);
        }
        write_row(&mut out, row.as_slice())?;
    }
    Ok(Blob::from_vec(out))
}

/// What a SELECT gives of these rows, in the order in which they are written.
pub fn answer(
    alloc: Global,
    def: &TableDef,
    rows: &[u8],
    statement: &BoundSelect,
) -> Result<Blob, Stop> {
    let rows = rows_of(alloc, rows)?;
    if !are_fit(def, rows.as_slice()) {
        return Err(Stop::Disk);
    }
    let mut source = ListRows::new(def, rows.as_slice());
    let found = select(alloc, &mut source, def, statement)?;
    let text = text_of(alloc, found.as_slice())?;
    Ok(text)
}
