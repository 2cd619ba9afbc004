//! Worked keys.

ghost use Rattle.std.specs.Prelude.{◌≡◌, ◌∷◌, [], IfOk, None, Some};
ghost use Rattle.mr_types.specs.Rows.{IsRowOf};
ghost use Rattle.mr_memcmp.specs.Fitting.{HasKind};

use mr_base::{Blob, Memory};
use mr_memcmp::{compare_keys, encode_columns, encode_key};
use mr_types::{Collation, ColumnDef, ColumnType, IndexDef, Kind, Row, TableDef, Value};
use sqlite_items::Items;
use std::alloc::Global;
use std::cmp::Ordering;
use std::test::Fail;

enum Given {
    Int(i32),
    BigInt(i64),
    Text(Collation, &'static [u8]),
    Bytes(&'static [u8]),
}

/// A value that isn't NULL, and a kind of columns that takes it.
#[derive(Drop)]
struct Field {
    kind: Kind,
    value: Value,
}

fn typed(alloc: Global, given: &Given) -> Result<Field, Memory>
    ensures { IfOk result (λ t. HasKind t.kind t.value) }
{
    Ok(match given {
        Given::Int(number) => Field {
            kind: Kind::Int,
            value: Value::Number(*number as i128),
        },
        Given::BigInt(number) => Field {
            kind: Kind::BigInt,
            value: Value::Number(*number as i128),
        },
        Given::Text(collation, text) => Field {
            kind: Kind::VarChar(20, *collation),
            value: Value::Text(Blob::from_slice(alloc, text)?),
        },
        Given::Bytes(bytes) => Field {
            kind: Kind::VarBinary(20),
            value: Value::Bytes(Blob::from_slice(alloc, bytes)?),
        },
    })
}

/// A table without a primary key, of one column.
fn table_of(alloc: Global, kind: Kind, nullable: bool) -> Result<TableDef, Memory>
    ensures columns { IfOk result (λ def. def.columns ≡ record { name = []; ty = record { kind = kind; nullable = nullable }; default = None } ∷ []) }
    ensures hidden { IfOk result (λ def. def.primary.columns ≡ []) }
    ensures no_ttl { IfOk result (λ def. def.ttl ≡ None) }
{
    let mut columns = Items::new(alloc);
    columns.push(ColumnDef {
        name: Blob::from_slice(alloc, b"")?,
        ty: ColumnType { kind, nullable },
        default: None,
    })?;
    let primary = IndexDef {
        name: Blob::from_slice(alloc, b"")?,
        columns: Blob::from_slice(alloc, b"")?,
        unique: true,
        comment: Blob::from_slice(alloc, b"")?,
    };
    Ok(TableDef::new(
        Blob::from_slice(alloc, b"t")?,
        columns,
        primary,
        Items::new(alloc),
        Blob::from_slice(alloc, b"")?,
        None,
    ))
}

/// A row of one value with the hidden number 7.
fn row_of(alloc: Global, value: Value) -> Result<Row, Memory>
    ensures { IfOk result (λ row. row ≡ record { hidden = Some 7; stamp = None; fields = value ∷ [] }) }
{
    let mut fields = Items::new(alloc);
    fields.push(value)?;
    Ok(Row {
        hidden: Some(7),
        stamp: None,
        fields,
    })
}

/// The value as the one column of index 256.
fn column_in_256(alloc: Global, field: Field, nullable: bool) -> Result<Blob, Memory>
    requires { HasKind field.kind field.value }
{
    let def = table_of(alloc, field.kind, nullable)?;
    let row = row_of(alloc, field.value)?;
    encode_columns(alloc, 256, &def, b"\x00", &row)
}

const KEYS: [(&str, Given, &[u8]); 14] = [
    (
        "minus one",
        Given::Int(-1),
        b"\x00\x00\x01\x00\x7f\xff\xff\xff",
    ),
    (
        "the least BIGINT",
        Given::BigInt(-9223372036854775808),
        b"\x00\x00\x01\x00\x00\x00\x00\x00\x00\x00\x00\x00",
    ),
    (
        "minus one as a BIGINT",
        Given::BigInt(-1),
        b"\x00\x00\x01\x00\x7f\xff\xff\xff\xff\xff\xff\xff",
    ),
    (
        "zero",
        Given::BigInt(0),
        b"\x00\x00\x01\x00\x80\x00\x00\x00\x00\x00\x00\x00",
    ),
    (
        "the greatest BIGINT",
        Given::BigInt(9223372036854775807),
        b"\x00\x00\x01\x00\xff\xff\xff\xff\xff\xff\xff\xff",
    ),
    (
        "eight bytes",
        Given::Bytes(b"abcdefgh"),
        b"\x00\x00\x01\x00abcdefgh\x08",
    ),
    (
        "nine bytes",
        Given::Bytes(b"abcdefgh\x00"),
        b"\x00\x00\x01\x00abcdefgh\x09\x00\x00\x00\x00\x00\x00\x00\x00\x01",
    ),
    (
        "no bytes",
        Given::Bytes(b""),
        b"\x00\x00\x01\x00\x00\x00\x00\x00\x00\x00\x00\x00\x00",
    ),
    (
        "a full piece",
        Given::Text(Collation::Bin, b"abcdefgh"),
        b"\x00\x00\x01\x00abcdefgh\x02",
    ),
    (
        "a tab behind it",
        Given::Text(Collation::Bin, b"abcdefgh\t"),
        b"\x00\x00\x01\x00abcdefgh\x01\t       \x02",
    ),
    (
        "a letter behind it",
        Given::Text(Collation::Bin, b"abcdefghi"),
        b"\x00\x00\x01\x00abcdefgh\x03i       \x02",
    ),
    (
        "a letter behind two spaces",
        Given::Text(Collation::Bin, b"abcdefgh  x"),
        b"\x00\x00\x01\x00abcdefgh\x03  x     \x02",
    ),
    (
        "folded, with a space at its end",
        Given::Text(Collation::Ci, b"Ab "),
        b"\x00\x00\x01\x00\x41\x42\x20\x20\x20\x20\x20\x20\x02",
    ),
    (
        "folded",
        Given::Text(Collation::Ci, b"aB"),
        b"\x00\x00\x01\x00\x41\x42\x20\x20\x20\x20\x20\x20\x02",
    ),
];

#[test]
fn columns_in_keys(rt: HostRuntime) -> Result<(), Fail> {
    for (name, given, wanted) in &KEYS {
        let key = column_in_256(rt.alloc(), typed(rt.alloc(), given)?, false)?;
        assert!(rt; key.as_slice() == *wanted, "{name}");
    }
    Ok(())
}

#[test]
fn keys_with_flags_and_hidden_numbers(rt: HostRuntime) -> Result<(), Fail> {
    let one = typed(rt.alloc(), &Given::Int(1))?;
    let key = column_in_256(rt.alloc(), one, true)?;
    assert_eq!(rt;
        key.as_slice(),
        b"\x00\x00\x01\x00\x01\x80\x00\x00\x01".as_slice()
    );
    let def = table_of(rt.alloc(), Kind::Int, true)?;
    let row = row_of(rt.alloc(), Value::Null)?;
    let key = encode_key(rt.alloc(), 256, &def, b"\x00", &row)?;
    assert_eq!(rt;
        key.as_slice(),
        b"\x00\x00\x01\x00\x00\x00\x00\x00\x00\x00\x00\x00\x07".as_slice()
    );
    let key = encode_key(rt.alloc(), 256, &def, b"", &row)?;
    assert_eq!(rt;
        key.as_slice(),
        b"\x00\x00\x01\x00\x00\x00\x00\x00\x00\x00\x00\x07".as_slice()
    );
    Ok(())
}

const ORDERS: [(&[u8], &[u8], Ordering); 4] = [
    (b"ab", b"b", Ordering::Less),
    (b"ab", b"a", Ordering::Greater),
    (b"\xff", b"\x01\x02", Ordering::Greater),
    (b"ab", b"ab", Ordering::Equal),
];

#[test]
fn keys_in_a_dictionary(rt: HostRuntime) -> Result<(), Fail> {
    for (left, right, order) in ORDERS {
        assert_eq!(rt; compare_keys(left, right), order);
    }
    Ok(())
}
