//! Values and rows written behind bytes.

ghost use Rattle.std.specs.Prelude.{◌≡◌, ◌++◌, ◌∷◌, [], pos, OnOk};
ghost use Rattle.mr_spec.specs.RowForm.{number_bytes, value_bytes, values_bytes, given_bytes, flags_of as row_flags, row_bytes};
ghost use Rattle.std.specs.List.{AllByRecursion};
ghost use Rattle.mr_fields.specs.Fitting.{signed_bytes, NumberFits, ValueHasPlace, RowHasPlace};

use crate::write::{write_byte, write_bytes, write_count, write_text16, write_u64};
use byteorder::{BigEndian, ByteOrder};
use mr_base::Memory;
use mr_types::{Row, Value};

fn write_signed(out: &mut Vec<u8>, number: i64) -> Result<(), Memory>
    ensures { OnOk result (out.new.items ≡ out.old.items ++ signed_bytes number) }
{
    let mut bytes = [1; 9];
    BigEndian::write_i64(&mut bytes[1..], number);
    write_bytes(out, &bytes)
}

fn write_unsigned(out: &mut Vec<u8>, number: u64) -> Result<(), Memory>
    ensures { OnOk result (out.new.items ≡ out.old.items ++ number_bytes (pos number)) }
{
    let mark = if number < 0x8000_0000_0000_0000 { 1 } else { 2 };
    write_byte(out, mark)?;
    write_u64(out, number)
}

fn write_number(out: &mut Vec<u8>, number: i128) -> Result<(), Memory>
    ensures written { OnOk result (out.new.items ≡ out.old.items ++ number_bytes number) }
    ensures place { OnOk result (NumberFits number) }
{
    if number < 0 {
        match i64::try_from(number) {
            Ok(number) => write_signed(out, number),
            Err(_) => Err(Memory),
        }
    } else {
        match u64::try_from(number) {
            Ok(number) => write_unsigned(out, number),
            Err(_) => Err(Memory),
        }
    }
}

/// Adds a value. A number that isn't from -2^63 to 2^64 - 1, and a text of more than 65,535 bytes,
/// are answered as want of memory.
pub fn write_value(out: &mut Vec<u8>, value: &Value) -> Result<(), Memory>
    ensures written { OnOk result (out.new.items ≡ out.old.items ++ value_bytes value.now) }
    ensures place { OnOk result (ValueHasPlace value.now) }
{
    match value {
        Value::Null => write_byte(out, 0),
        Value::Number(number) => write_number(out, *number),
        Value::Text(text) => {
            write_byte(out, 3)?;
            write_text16(out, text.as_slice())
        }
        Value::Bytes(bytes) => {
            write_byte(out, 4)?;
            write_text16(out, bytes.as_slice())
        }
    }
}

fn write_values(out: &mut Vec<u8>, values: &[Value]) -> Result<(), Memory>
    ensures written { OnOk result (out.new.items ≡ out.old.items ++ values_bytes values.now) }
    ensures place { OnOk result (AllByRecursion ValueHasPlace values.now) }
{
    'writing: for value in values {
        write_value(out, value)?;
    }
    Ok(())
}

fn write_given(out: &mut Vec<u8>, number: Option<u64>) -> Result<(), Memory>
    ensures { OnOk result (out.new.items ≡ out.old.items ++ given_bytes number) }
{
    match number {
        Some(number) => write_u64(out, number),
        None => Ok(()),
    }
}

fn flags_of(row: &Row) -> u8
    ensures { result ≡ row_flags row.now }
{
    match (row.hidden, row.stamp) {
        (None, None) => 0,
        (Some(_), None) => 1,
        (None, Some(_)) => 2,
        (Some(_), Some(_)) => 3,
    }
}

/// Adds a row. More than 255 columns, and values as of `write_value`, are answered as want of memory.
pub fn write_row(out: &mut Vec<u8>, row: &Row) -> Result<(), Memory>
    ensures written { OnOk result (out.new.items ≡ out.old.items ++ row_bytes row.now) }
    ensures place { OnOk result (RowHasPlace row.now) }
{
    write_byte(out, flags_of(row))?;
    write_given(out, row.hidden)?;
    write_given(out, row.stamp)?;
    write_count(out, row.fields.len())?;
    write_values(out, row.fields.as_slice())
}
