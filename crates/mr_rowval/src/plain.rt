//! A column of a row's value that isn't in the key.

ghost use Rattle.std.specs.Prelude.{◌≡◌, List, ℕ, Bool, length, pos};
ghost use Rattle.std.specs.Int.{w16, w32, w64, from_be_bytes};
ghost use Rattle.mr_types.specs.declared.value.Value.TheVariants.{Text, Bytes};
ghost use Rattle.mr_types.specs.FieldValues.{value_of_bytes};
ghost use Rattle.mr_memcmp.specs.Reading.{as_number, number_read};
ghost use Rattle.mr_rowval.specs.Plain.{signed, is_text16, text16_read, is_any, is_ascii_text, plain_read};
ghost use Rattle.mr_rowval.specs.Walking.{TakesField};

use mr_lanes::is_ascii;
use mr_memcmp::{u32_at, u64_at};
use mr_pieces::BytesLeft;
use mr_types::{FieldRef, Kind};

fn signed_32(number: u32) -> i128
    ensures { result ≡ signed 31 number }
{
    if number < 0x8000_0000 {
        number as i128
    } else {
        number as i128 - 0x1_0000_0000
    }
}

fn signed_64(number: u64) -> i128
    ensures { result ≡ signed 63 number }
{
    if number < 0x8000_0000_0000_0000 {
        number as i128
    } else {
        number as i128 - 0x1_0000_0000_0000_0000
    }
}

fn int_at(kind: Kind, bytes: &[u8]) -> Result<(FieldRef<'_>, &[u8]), BytesLeft>
    ensures { TakesField kind bytes.now result (as_number (signed 31) (number_read w32 bytes.now)) }
{
    let (number, rest) = u32_at(bytes)?;
    Ok((FieldRef::Number(signed_32(number)), rest))
}

fn int_unsigned_at(kind: Kind, bytes: &[u8]) -> Result<(FieldRef<'_>, &[u8]), BytesLeft>
    ensures { TakesField kind bytes.now result (as_number pos (number_read w32 bytes.now)) }
{
    let (number, rest) = u32_at(bytes)?;
    Ok((FieldRef::Number(number as i128), rest))
}

fn big_at(kind: Kind, bytes: &[u8]) -> Result<(FieldRef<'_>, &[u8]), BytesLeft>
    ensures { TakesField kind bytes.now result (as_number (signed 63) (number_read w64 bytes.now)) }
{
    let (number, rest) = u64_at(bytes)?;
    Ok((FieldRef::Number(signed_64(number)), rest))
}

fn big_unsigned_at(kind: Kind, bytes: &[u8]) -> Result<(FieldRef<'_>, &[u8]), BytesLeft>
    ensures { TakesField kind bytes.now result (as_number pos (number_read w64 bytes.now)) }
{
    let (number, rest) = u64_at(bytes)?;
    Ok((FieldRef::Number(number as i128), rest))
}

/// A text of at most `width` bytes behind its length.
fn text_at(width: u16, kind: Kind, bytes: &[u8]) -> Result<(FieldRef<'_>, &[u8]), BytesLeft>
    requires { (text : List ℕ) → value_of_bytes kind text ≡ Text text }
    ensures { TakesField kind bytes.now result (text16_read width is_ascii_text Text bytes.now) }
{
    if bytes.len() < 2 {
        return Err(bytes.len());
    }
    let (front, behind) = bytes.split_at(2);
    let length = u16::from_be_bytes([front[0], front[1]]);
    if length > width || length as usize > behind.len() {
        return Err(bytes.len());
    }
    let (text, rest) = behind.split_at(length as usize);
    if !is_ascii(text) {
        return Err(bytes.len());
    }
    Ok((FieldRef::Slice(text), rest))
}

/// Bytes, at most `width`, behind their length.
fn bytes_at(width: u16, kind: Kind, bytes: &[u8]) -> Result<(FieldRef<'_>, &[u8]), BytesLeft>
    requires { (text : List ℕ) → value_of_bytes kind text ≡ Bytes text }
    ensures { TakesField kind bytes.now result (text16_read width is_any Bytes bytes.now) }
{
    if bytes.len() < 2 {
        return Err(bytes.len());
    }
    let (front, behind) = bytes.split_at(2);
    let length = u16::from_be_bytes([front[0], front[1]]);
    if length > width || length as usize > behind.len() {
        return Err(bytes.len());
    }
    let (text, rest) = behind.split_at(length as usize);
    Ok((FieldRef::Slice(text), rest))
}

/// The value of a column that isn't NULL, and what stands behind it.
#[tactic(auto, unfolding(crate::specs::Plain::plain_read))]
pub fn plain_at(kind: Kind, bytes: &[u8]) -> Result<(FieldRef<'_>, &[u8]), BytesLeft>
    ensures { TakesField kind bytes.now result (plain_read kind bytes.now) }
{
    match kind {
        Kind::Int => int_at(kind, bytes),
        Kind::IntUnsigned => int_unsigned_at(kind, bytes),
        Kind::BigInt => big_at(kind, bytes),
        Kind::BigIntUnsigned => big_unsigned_at(kind, bytes),
        Kind::VarChar(width, _) => text_at(width, kind, bytes),
        Kind::VarBinary(width) => bytes_at(width, kind, bytes),
    }
}
