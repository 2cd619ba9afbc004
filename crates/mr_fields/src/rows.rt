//! Values and rows in front of bytes.
//!
//!     row     flags u8 (1: a hidden number follows, 2: a stamp follows, 3: both, 0: none), the
//!             hidden number u64, the stamp u64, the count of columns u8, the values
//!     value   00, NULL; 01 and u64, a number below 2^63 in two's complement; 02 and u64, a number
//!             of 2^63 or more; 03 and a text; 04 and bytes

ghost use Rattle.std.specs.Prelude.{◌≡◌};
ghost use Rattle.mr_fields.specs.Fields.{listed_in};
ghost use Rattle.mr_fields.specs.Rows.{signed_in, great_in, text_in, binary_in, value_in, given_in, has_hidden as says_hidden, has_stamp as says_stamp, row_in};
ghost use Rattle.mr_fields.specs.Given.{Given, Reads};

use crate::numbers::{byte_at, u64_at};
use crate::stop::{Offence, ReadStop};
use crate::texts::{bytes16_at, text16_at};
use mr_types::{Row, Value, ValueList};
use std::alloc::Global;

fn signed_at(bytes: &[u8]) -> Result<(Value, &[u8]), Offence>
    ensures { Reads result (signed_in bytes.now) }
{
    let (bits, rest) = u64_at(bytes)?;
    Ok((Value::Number(bits.cast_signed() as i128), rest))
}

fn great_at(bytes: &[u8]) -> Result<(Value, &[u8]), Offence>
    ensures { Reads result (great_in bytes.now) }
{
    let (number, rest) = u64_at(bytes)?;
    if number < 0x8000_0000_0000_0000 {
        return Err(Offence(bytes.len()));
    }
    Ok((Value::Number(number as i128), rest))
}

fn text_at(alloc: Global, bytes: &[u8]) -> Result<(Value, &[u8]), ReadStop>
    ensures { Given result (text_in bytes.now) }
{
    let (text, rest) = text16_at(alloc, bytes)?;
    Ok((Value::Text(text), rest))
}

fn binary_at(alloc: Global, bytes: &[u8]) -> Result<(Value, &[u8]), ReadStop>
    ensures { Given result (binary_in bytes.now) }
{
    let (binary, rest) = bytes16_at(alloc, bytes)?;
    Ok((Value::Bytes(binary), rest))
}

/// The value in front. Takes memory.
pub fn value_at(alloc: Global, bytes: &[u8]) -> Result<(Value, &[u8]), ReadStop>
    ensures { Given result (value_in bytes.now) }
{
    match bytes {
        [0, rest @ ..] => Ok((Value::Null, rest)),
        [1, rest @ ..] => Ok(signed_at(rest)?),
        [2, rest @ ..] => Ok(great_at(rest)?),
        [3, rest @ ..] => text_at(alloc, rest),
        [4, rest @ ..] => binary_at(alloc, rest),
        _ => Err(ReadStop::Left(bytes.len())),
    }
}

/// So many values.
#[tactic(auto, using(crate::proofs::Lists::goes_on, crate::proofs::Lists::stops))]
fn values_at(alloc: Global, count: u8, bytes: &[u8]) -> Result<(ValueList, &[u8]), ReadStop>
    ensures { Given result (listed_in value_in count bytes.now) }
{
    let mut values = ValueList::new(alloc);
    let mut rest = bytes;
    'reading: for i in 0..count {
        let (value, behind) = value_at(alloc, rest)?;
        values.push(value)?;
        rest = behind;
    }
    Ok((values, rest))
}

fn given_at(is_there: bool, bytes: &[u8]) -> Result<(Option<u64>, &[u8]), Offence>
    ensures { Reads result (given_in is_there bytes.now) }
{
    if !is_there {
        return Ok((None, bytes));
    }
    let (number, rest) = u64_at(bytes)?;
    Ok((Some(number), rest))
}

fn has_hidden(flags: u8) -> bool
    ensures { result ≡ says_hidden flags }
{
    flags == 1 || flags == 3
}

fn has_stamp(flags: u8) -> bool
    ensures { result ≡ says_stamp flags }
{
    flags == 2 || flags == 3
}

/// The row in front. Takes memory.
pub fn row_at(alloc: Global, bytes: &[u8]) -> Result<(Row, &[u8]), ReadStop>
    ensures { Given result (row_in bytes.now) }
{
    let (flags, rest) = byte_at(4, bytes)?;
    let (hidden, rest) = given_at(has_hidden(flags), rest)?;
    let (stamp, rest) = given_at(has_stamp(flags), rest)?;
    let (count, rest) = byte_at(256, rest)?;
    let (fields, rest) = values_at(alloc, count, rest)?;
    Ok((
        Row {
            hidden,
            stamp,
            fields,
        },
        rest,
    ))
}
