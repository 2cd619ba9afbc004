//! Numbers in front of bytes.

ghost use Rattle.std.specs.Prelude.{◌≡◌};
ghost use Rattle.mr_fields.specs.Fields.{byte_in, flag_in, number_in};
ghost use Rattle.mr_fields.specs.Given.{Reads};

use crate::stop::Offence;
use byteorder::{BigEndian, ByteOrder};

/// A byte below `limit`.
pub fn byte_at(limit: usize, bytes: &[u8]) -> Result<(u8, &[u8]), Offence>
    ensures { Reads result (byte_in limit bytes.now) }
{
    match bytes {
        [byte, rest @ ..] if (*byte as usize) < limit => Ok((*byte, rest)),
        _ => Err(Offence(bytes.len())),
    }
}

/// A byte that is 0 or 1, and whether it is 1.
pub fn flag_at(bytes: &[u8]) -> Result<(bool, &[u8]), Offence>
    ensures { Reads result (flag_in bytes.now) }
{
    let (byte, rest) = byte_at(2, bytes)?;
    Ok((byte == 1, rest))
}

/// A number of two bytes.
pub fn u16_at(bytes: &[u8]) -> Result<(u16, &[u8]), Offence>
    ensures { Reads result (number_in 2 bytes.now) }
{
    if bytes.len() < 2 {
        return Err(Offence(bytes.len()));
    }
    Ok((BigEndian::read_u16(bytes), &bytes[2..]))
}

/// A number of four bytes.
pub fn u32_at(bytes: &[u8]) -> Result<(u32, &[u8]), Offence>
    ensures { Reads result (number_in 4 bytes.now) }
{
    if bytes.len() < 4 {
        return Err(Offence(bytes.len()));
    }
    Ok((BigEndian::read_u32(bytes), &bytes[4..]))
}

/// A number of eight bytes.
pub fn u64_at(bytes: &[u8]) -> Result<(u64, &[u8]), Offence>
    ensures { Reads result (number_in 8 bytes.now) }
{
    if bytes.len() < 8 {
        return Err(Offence(bytes.len()));
    }
    Ok((BigEndian::read_u64(bytes), &bytes[8..]))
}
