//! Fields in front of a list of bytes.
ghost use Rattle.std.specs.Prelude.{◌≡◌, ◌≤◌, ◌+◌, length, drop, IfOk, IfErr};
ghost use Rattle.byteorder.specs.Endian.{big_number};
ghost use Rattle.mr_block.specs.Fields.{number_in, bytes_in, number_given, bytes_given};
ghost use Rattle.mr_block.specs.Block.{key_in};
ghost use Rattle.mr_run_file.specs.Reading.{demand as demanded};

use byteorder::{BigEndian, ByteOrder};

/// How many bytes are left from the first byte of the field that breaks its rule or isn't whole.
pub type BytesLeft = usize;

pub fn u32_in(bytes: &[u8]) -> Result<(u32, &[u8]), BytesLeft>
    ensures { number_given result ≡ number_in 4 bytes.now }
{
    if bytes.len() < 4 {
        return Err(bytes.len());
    }
    Ok((BigEndian::read_u32(bytes), &bytes[4..]))
}

pub fn u64_in(bytes: &[u8]) -> Result<(u64, &[u8]), BytesLeft>
    ensures { number_given result ≡ number_in 8 bytes.now }
{
    if bytes.len() < 8 {
        return Err(bytes.len());
    }
    Ok((BigEndian::read_u64(bytes), &bytes[8..]))
}

fn bytes_of(count: usize, bytes: &[u8]) -> Result<(&[u8], &[u8]), BytesLeft>
    ensures { bytes_given result ≡ bytes_in count bytes.now }
{
    if bytes.len() < count {
        return Err(bytes.len());
    }
    Ok(bytes.split_at(count))
}

/// A length and so many bytes.
pub fn key_of(bytes: &[u8]) -> Result<(&[u8], &[u8]), BytesLeft>
    ensures { bytes_given result ≡ key_in bytes.now }
{
    let (size, rest) = u32_in(bytes)?;
    bytes_of(size as usize, rest)
}

/// The bytes from a place on.
pub fn rest_at(bytes: &[u8], at: usize) -> &[u8]
    requires { at ≤ length bytes.now }
    ensures { result.now ≡ drop at bytes.now }
{
    bytes.split_at(at).1
}

/// The number that stands at a place.
pub fn number_at(bytes: &[u8], at: usize) -> u64
    requires { at + 8 ≤ length bytes.now }
    ensures { result ≡ big_number 8 (drop at bytes.now) }
{
    BigEndian::read_u64(rest_at(bytes, at))
}

/// What holds of a field, or its offence.
pub fn demand(holds: bool, at: u64) -> Result<(), u64>
    ensures { result ≡ demanded holds at }
{
    if holds { Ok(()) } else { Err(at) }
}

/// What holds of a field, or the bytes left from it on.
pub fn demand_left(holds: bool, left: BytesLeft) -> Result<(), BytesLeft>
    ensures { result ≡ demanded holds left }
{
    if holds { Ok(()) } else { Err(left) }
}
