//! Names and texts in front of bytes.

ghost use Rattle.std.specs.Prelude.{◌≡◌};
ghost use Rattle.std.specs.List.{list_all};
ghost use Rattle.mr_fields.specs.Fields.{is_name_byte as name_byte, is_name as is_name_text, is_text, is_any, name_in, text16_in};
ghost use Rattle.mr_fields.specs.Given.{Given, Lends};

use crate::numbers::u16_at;
use crate::stop::{Offence, ReadStop};
use mr_base::Blob;
use mr_lanes::is_ascii;
use std::alloc::Global;

fn is_name_byte(byte: u8) -> bool
    ensures { result ≡ name_byte byte }
{
    0 < byte && byte < 0x80
}

fn are_name_bytes(name: &[u8]) -> bool
    ensures { result ≡ list_all name_byte name.now }
{
    name.iter().all(|byte| is_name_byte(*byte))
}

fn is_name(name: &[u8]) -> bool
    ensures { result ≡ is_name_text name.now }
{
    0 < name.len() && are_name_bytes(name)
}

fn lent_name(bytes: &[u8]) -> Result<(&[u8], &[u8]), Offence>
    ensures { Lends result (name_in bytes.now) }
{
    match bytes {
        [size, rest @ ..] if *size as usize <= rest.len() => {
            let (name, behind) = rest.split_at(*size as usize);
            if is_name(name) {
                Ok((name, behind))
            } else {
                Err(Offence(bytes.len()))
            }
        }
        _ => Err(Offence(bytes.len())),
    }
}

/// A name: a length of one byte, and so many bytes from 0x01 to 0x7F, at least one. Takes memory.
pub fn name_at(alloc: Global, bytes: &[u8]) -> Result<(Blob, &[u8]), ReadStop>
    ensures { Given result (name_in bytes.now) }
{
    let (name, rest) = lent_name(bytes)?;
    Ok((Blob::from_slice(alloc, name)?, rest))
}

/// A length of two bytes, and so many bytes.
fn lent_bytes(bytes: &[u8]) -> Result<(&[u8], &[u8]), Offence>
    ensures { Lends result (text16_in is_any bytes.now) }
{
    let Ok((size, rest)) = u16_at(bytes) else {
        return Err(Offence(bytes.len()));
    };
    if rest.len() < size as usize {
        return Err(Offence(bytes.len()));
    }
    Ok(rest.split_at(size as usize))
}

/// A length of two bytes, and so many bytes below 0x80.
fn lent_text(bytes: &[u8]) -> Result<(&[u8], &[u8]), Offence>
    ensures { Lends result (text16_in is_text bytes.now) }
{
    let Ok((size, rest)) = u16_at(bytes) else {
        return Err(Offence(bytes.len()));
    };
    if rest.len() < size as usize {
        return Err(Offence(bytes.len()));
    }
    let (text, behind) = rest.split_at(size as usize);
    if is_ascii(text) {
        Ok((text, behind))
    } else {
        Err(Offence(bytes.len()))
    }
}

/// A text of bytes below 0x80 behind its length of two bytes. Takes memory.
pub fn text16_at(alloc: Global, bytes: &[u8]) -> Result<(Blob, &[u8]), ReadStop>
    ensures { Given result (text16_in is_text bytes.now) }
{
    let (text, rest) = lent_text(bytes)?;
    Ok((Blob::from_slice(alloc, text)?, rest))
}

/// Any bytes behind their length of two bytes. Takes memory.
pub fn bytes16_at(alloc: Global, bytes: &[u8]) -> Result<(Blob, &[u8]), ReadStop>
    ensures { Given result (text16_in is_any bytes.now) }
{
    let (text, rest) = lent_bytes(bytes)?;
    Ok((Blob::from_slice(alloc, text)?, rest))
}
