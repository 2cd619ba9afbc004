//! Values of rows.

ghost use Rattle.std.specs.Prelude.{◌≡◌, ◌<◌, ◌^◌, ◌++◌, length, IfOk, OnOk, slice_get};
ghost use Rattle.std.specs.Option.{option_copied};
ghost use Rattle.byteorder.specs.Endian.{big_bytes};
ghost use Rattle.mr_types.specs.Rows.{AreFields, IsRowOf};
ghost use Rattle.mr_memcmp.specs.Fitting.{IsSigned, IsNumber};
ghost use Rattle.mr_memcmp.specs.Keys.{hidden_bytes};
ghost use Rattle.mr_memcmp.specs.ComeBack.{IsTaken, unpack_bytes, part_unpack, parts_unpack};
ghost use Rattle.mr_rowval.specs.Plain.{complement, plain_number, text16, plain_bytes};
ghost use Rattle.mr_rowval.specs.RowValue.{field_bytes, fields_bytes, row_value_bytes};
ghost use Rattle.mr_rowval.specs.Encoding.{TakesPart};

use crate::key::is_in;
use crate::packing::push_nulls;
use byteorder::{BigEndian, ByteOrder};
use mr_base::{Blob, Memory};
use mr_pieces::push_unpack;
use mr_types::{Collation, ColumnDef, ColumnType, Kind, Row, TableDef, Value};
use sqlite_items::at;
use std::alloc::{AllocError, Global};

fn push_u32(out: &mut Vec<u8>, number: u32) -> Result<(), AllocError>
    ensures { OnOk result (out.new.items ≡ out.old.items ++ big_bytes 4 number) }
{
    let mut bytes = [0; 4];
    BigEndian::write_u32(&mut bytes, number);
    out.extend_from_slice(&bytes)?;
    Ok(())
}

fn push_u64(out: &mut Vec<u8>, number: u64) -> Result<(), AllocError>
    ensures { OnOk result (out.new.items ≡ out.old.items ++ big_bytes 8 number) }
{
    let mut bytes = [0; 8];
    BigEndian::write_u64(&mut bytes, number);
    out.extend_from_slice(&bytes)?;
    Ok(())
}

fn complement_32(number: i128) -> u32
    requires { IsSigned 31 number }
    ensures { result ≡ complement 32 number }
{
    if number < 0 {
        (number + 0x1_0000_0000) as u32
    } else {
        number as u32
    }
}

fn complement_64(number: i128) -> u64
    requires { IsSigned 63 number }
    ensures { result ≡ complement 64 number }
{
    if number < 0 {
        (number + 0x1_0000_0000_0000_0000) as u64
    } else {
        number as u64
    }
}

/// Adds a number in two's complement, the highest byte first.
fn push_number(out: &mut Vec<u8>, kind: Kind, number: i128) -> Result<(), AllocError>
    requires { IsNumber kind number }
    ensures { OnOk result (out.new.items ≡ out.old.items ++ plain_number kind number) }
{
    match kind {
        Kind::Int => push_u32(out, complement_32(number)),
        Kind::IntUnsigned => push_u32(out, number as u32),
        Kind::BigInt => push_u64(out, complement_64(number)),
        Kind::BigIntUnsigned => push_u64(out, number as u64),
        Kind::VarChar(..) => Ok(()),
        Kind::VarBinary(_) => Ok(()),
    }
}

/// Adds a text or bytes behind their length.
fn push_text16(out: &mut Vec<u8>, text: &[u8]) -> Result<(), AllocError>
    requires { length text.now < 2 ^ 16 }
    ensures { OnOk result (out.new.items ≡ out.old.items ++ text16 text.now) }
{
    out.extend_from_slice(&(text.len() as u16).to_be_bytes())?;
    out.extend_from_slice(text)?;
    Ok(())
}

fn push_plain(out: &mut Vec<u8>, column: ColumnType, value: &Value) -> Result<(), AllocError>
    requires { IsTaken column value.now }
    ensures { OnOk result (out.new.items ≡ out.old.items ++ plain_bytes column.kind value.now) }
{
    match value {
        Value::Null => Ok(()),
        Value::Number(number) => push_number(out, column.kind, *number),
        Value::Text(text) => push_text16(out, text.as_slice()),
        Value::Bytes(bytes) => push_text16(out, bytes.as_slice()),
    }
}

fn push_field(
    out: &mut Vec<u8>,
    in_key: bool,
    column: ColumnType,
    value: &Value,
) -> Result<(), AllocError>
    requires { IsTaken column value.now }
    ensures { OnOk result (out.new.items ≡ out.old.items ++ field_bytes in_key column.kind value.now) }
{
    if in_key {
        return Ok(());
    }
    push_plain(out, column, value)
}

/// Adds the columns that aren't in the key.
fn push_fields(
    out: &mut Vec<u8>,
    columns: &[ColumnDef],
    values: &[Value],
    places: &[u8],
) -> Result<(), AllocError>
    requires { AreFields columns.now values.now }
    ensures { OnOk result (out.new.items ≡ out.old.items ++ fields_bytes places.now 0 columns.now values.now) }
{
    for (at, column) in columns.iter().enumerate() {
        push_field(out, is_in(places, at), column.ty, &values[at])?;
    }
    Ok(())
}

fn push_value_form(out: &mut Vec<u8>, column: ColumnType, value: &Value) -> Result<(), AllocError>
    requires { IsTaken column value.now }
    ensures { OnOk result (out.new.items ≡ out.old.items ++ unpack_bytes column.kind value.now) }
{
    match value {
        Value::Text(text) => match column.kind {
            Kind::VarChar(_, collation) => push_unpack(out, collation, text.as_slice()),
            _ => push_unpack(out, Collation::Bin, text.as_slice()),
        },
        Value::Null | Value::Number(_) | Value::Bytes(_) => Ok(()),
    }
}

/// Adds the unpack form of a column, if there is one at the place.
fn push_form(
    out: &mut Vec<u8>,
    column: Option<&ColumnDef>,
    value: Option<&Value>,
) -> Result<(), AllocError>
    requires { TakesPart (option_copied column) (option_copied value) }
    ensures { OnOk result (out.new.items ≡ out.old.items ++ part_unpack (option_copied column.entry) (option_copied value.entry)) }
{
    match column {
        None => Ok(()),
        Some(column) => match value {
            None => Ok(()),
            Some(value) => push_value_form(out, column.ty, value),
        },
    }
}

/// Adds the unpack form of each text at these places.
pub fn push_forms(
    out: &mut Vec<u8>,
    columns: &[ColumnDef],
    values: &[Value],
    places: &[u8],
) -> Result<(), AllocError>
    requires { AreFields columns.now values.now }
    ensures { OnOk result (out.new.items ≡ out.old.items ++ parts_unpack columns.now values.now places.now) }
{
    for place in places {
        push_form(
            out,
            at(columns, *place as usize),
            at(values, *place as usize),
        )?;
    }
    Ok(())
}

/// Adds the stamp, where there is one.
pub fn push_stamp(out: &mut Vec<u8>, stamp: Option<u64>) -> Result<(), AllocError>
    ensures { OnOk result (out.new.items ≡ out.old.items ++ hidden_bytes stamp) }
{
    match stamp {
        None => Ok(()),
        Some(stamp) => push_u64(out, stamp),
    }
}

fn value_of(alloc: Global, def: &TableDef, row: &Row) -> Result<Vec<u8>, AllocError>
    requires { IsRowOf def.now row.now }
    ensures { IfOk result (λ out. out.items ≡ row_value_bytes def.now row.now) }
{
    let mut out = Vec::new(alloc);
    let columns = def.columns.as_slice();
    let values = row.fields.as_slice();
    let places = def.primary.columns.as_slice();
    push_stamp(&mut out, row.stamp)?;
    push_nulls(&mut out, columns, values)?;
    push_forms(&mut out, columns, values, places)?;
    push_fields(&mut out, columns, values, places)?;
    Ok(out)
}

/// The value of a row's primary entry.
pub fn encode_row(alloc: Global, def: &TableDef, row: &Row) -> Result<Blob, Memory>
    requires { IsRowOf def.now row.now }
    ensures { IfOk result (λ value. value ≡ row_value_bytes def.now row.now) }
{
    Ok(Blob::from_vec(value_of(alloc, def, row)?))
}
