//! Assignment of a value to a column.

ghost use Rattle.std.specs.Prelude.{◌≡◌, length, drop, true, false, not};
ghost use Rattle.std.specs.List.{list_all};
ghost use Rattle.mr_lanes.specs.Kernels.{is_space};
ghost use Rattle.mr_types.specs.Values.{Answers, assign_to, is_in_kind, cut_text, fitted, is_null, length_of_kind};

use crate::conversion::convert;
use crate::kind::{ColumnType, Kind};
use crate::refused::Refused;
use crate::value::Value;
use mr_base::Blob;
use mr_lanes::trailing_spaces;
use std::alloc::Global;

fn is_null(value: &Value) -> bool
    ensures { result ≡ is_null value.now }
{
    match value {
        Value::Null => true,
        _ => false,
    }
}

fn is_in_kind(kind: Kind, number: i128) -> bool
    ensures { result ≡ is_in_kind kind number }
{
    match kind {
        Kind::Int => number >= -0x8000_0000 && number < 0x8000_0000,
        Kind::IntUnsigned => number >= 0 && number < 0x1_0000_0000,
        Kind::BigInt => number >= -0x8000_0000_0000_0000 && number < 0x8000_0000_0000_0000,
        Kind::BigIntUnsigned => number >= 0 && number < 0x1_0000_0000_0000_0000,
        Kind::VarChar(..) | Kind::VarBinary(_) => true,
    }
}

/// Whether all bytes are spaces.
fn is_blank(bytes: &[u8]) -> bool
    ensures { result ≡ list_all is_space bytes.now }
{
    trailing_spaces(bytes) == bytes.len()
}

/// The text, without the spaces behind its first `most` bytes; 1406 where others stand there.
fn fitting_text(most: usize, text: Blob) -> Result<Value, Refused>
    ensures { Answers result (cut_text most text) }
{
    if text.len() <= most {
        return Ok(Value::Text(text));
    }
    let mut bytes = text.into_vec();
    if !is_blank(&bytes[most..]) {
        return Err(Refused::Sql(1406));
    }
    bytes.truncate(most);
    Ok(Value::Text(Blob::from_vec(bytes)))
}

fn most_bytes(kind: Kind) -> usize
    ensures { result ≡ length_of_kind kind }
{
    match kind {
        Kind::VarChar(most, _) => most as usize,
        Kind::VarBinary(most) => most as usize,
        _ => 0,
    }
}

/// A converted value in the kind's range and length, else 1264 or 1406.
fn fitting(kind: Kind, value: Value) -> Result<Value, Refused>
    ensures { Answers result (fitted kind value) }
{
    match value {
        Value::Null => Ok(Value::Null),
        Value::Number(number) => {
            if !is_in_kind(kind, number) {
                return Err(Refused::Sql(1264));
            }
            Ok(Value::Number(number))
        }
        Value::Text(text) => fitting_text(most_bytes(kind), text),
        Value::Bytes(bytes) => {
            if bytes.len() > most_bytes(kind) {
                return Err(Refused::Sql(1406));
            }
            Ok(Value::Bytes(bytes))
        }
    }
}

/// The value as the column takes it: else 1048 for NULL into NOT NULL, 1366 where it isn't
/// converted, 1264 for a number out of range, 1406 for a text or bytes too long, the first that
/// applies. Spaces that alone are too many at a text's end are cut.
pub fn assign(alloc: Global, value: &Value, column: &ColumnType) -> Result<Value, Refused>
    ensures { Answers result (assign_to column.now value.now) }
{
    if is_null(value) && !column.nullable {
        return Err(Refused::Sql(1048));
    }
    let converted = convert(alloc, value, column.kind)?;
    fitting(column.kind, converted)
}
