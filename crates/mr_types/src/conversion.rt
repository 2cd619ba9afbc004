//! Conversion of a value to a kind.

ghost use Rattle.std.specs.Prelude.{◌≡◌, ◌*◌, ◌+◌, ◌<◌, ◌≤◌, ◌-◌, ◌^◌, Some, None, true, pos, length, drop, IfOk, IfSome};
ghost use Rattle.std.specs.List.{list_all};
ghost use Rattle.std.specs.Fmt.{signed_decimal};
ghost use Rattle.mr_types.specs.Values.{Answers, Sort, Numbers, Texts, Binaries, converted, convert_to, as_number, plain_option, is_digit, number_of, number_from, whole_number};

use crate::kind::Kind;
use crate::refused::Refused;
use crate::value::Value;
use mr_base::{Blob, Memory};
use mr_lanes::is_ascii;
use std::alloc::Global;

fn is_digit(byte: u8) -> bool
    ensures { result ≡ is_digit byte }
{
    byte >= b'0' && byte <= b'9'
}

fn are_digits(bytes: &[u8]) -> bool
    ensures { result ≡ list_all is_digit bytes.now }
{
    bytes.iter().all(|byte| is_digit(*byte))
}

/// The number whose decimal digits these are.
fn number_of_digits(digits: &[u8]) -> i128
    requires few { length digits.now ≤ 38 }
    requires all { list_all is_digit digits.now ≡ true }
    ensures { result ≡ pos (number_from 0 digits.now) }
{
    let mut number = 0u128;
    for digit in digits {
        number = 10 * number + (*digit - b'0') as u128;
    }
    number as i128
}

/// The number that 1 to 38 digits write.
fn digits(bytes: &[u8]) -> Option<i128>
    ensures { result ≡ plain_option (number_of 38 bytes.now) }
{
    if bytes.is_empty() || bytes.len() > 38 || !are_digits(bytes) {
        return None;
    }
    Some(number_of_digits(bytes))
}

/// The number that an optional `-` and 1 to 38 digits write.
fn whole_number(bytes: &[u8]) -> Option<i128>
    ensures { result ≡ whole_number bytes.now }
{
    match bytes {
        [b'-', rest @ ..] => match digits(rest) {
            Some(number) => Some(-number),
            None => None,
        },
        _ => digits(bytes),
    }
}

/// The number's decimal text.
fn decimal(alloc: Global, number: i128) -> Result<Blob, Memory>
    ensures { IfOk result (λ text. text ≡ signed_decimal number) }
{
    let text = number.to_string(alloc)?;
    Ok(Blob::from_vec(text.into_bytes()))
}

/// The number that bytes write, else 1366.
fn number_in(bytes: &[u8]) -> Result<Value, Refused>
    ensures { Answers result (as_number bytes.now) }
{
    match whole_number(bytes) {
        Some(number) => Ok(Value::Number(number)),
        None => Err(Refused::Sql(1366)),
    }
}

fn to_number(value: &Value) -> Result<Value, Refused>
    ensures { Answers result (converted Numbers value.now) }
{
    match value {
        Value::Null => Ok(Value::Null),
        Value::Number(number) => Ok(Value::Number(*number)),
        Value::Text(text) => number_in(text.as_slice()),
        Value::Bytes(bytes) => number_in(bytes.as_slice()),
    }
}

fn to_text(alloc: Global, value: &Value) -> Result<Value, Refused>
    ensures { Answers result (converted Texts value.now) }
{
    match value {
        Value::Null => Ok(Value::Null),
        Value::Number(number) => Ok(Value::Text(decimal(alloc, *number)?)),
        Value::Text(text) => Ok(Value::Text(text.copy(alloc)?)),
        Value::Bytes(bytes) => {
            if !is_ascii(bytes.as_slice()) {
                return Err(Refused::Sql(1366));
            }
            Ok(Value::Text(bytes.copy(alloc)?))
        }
    }
}

fn to_bytes(alloc: Global, value: &Value) -> Result<Value, Refused>
    ensures { Answers result (converted Binaries value.now) }
{
    match value {
        Value::Null => Ok(Value::Null),
        Value::Number(number) => Ok(Value::Bytes(decimal(alloc, *number)?)),
        Value::Text(text) => Ok(Value::Bytes(text.copy(alloc)?)),
        Value::Bytes(bytes) => Ok(Value::Bytes(bytes.copy(alloc)?)),
    }
}

/// The value as one of the kind, or 1366. Lengths and ranges are not looked at; NULL stays NULL.
pub fn convert(alloc: Global, value: &Value, kind: Kind) -> Result<Value, Refused>
    ensures { Answers result (convert_to kind value.now) }
{
    match kind {
        Kind::Int | Kind::IntUnsigned | Kind::BigInt | Kind::BigIntUnsigned => to_number(value),
        Kind::VarChar(..) => to_text(alloc, value),
        Kind::VarBinary(_) => to_bytes(alloc, value),
    }
}
