//! A number that is all of some bytes.

ghost use Rattle.std.specs.Prelude.{◌+◌, ◌<◌, ◌^◌, length};
ghost use Rattle.mr_fields.specs.Given.{GivesWhole};
ghost use Rattle.mr_dict_entry.specs.Entries.{lone_number_in};

use byteorder::{BigEndian, ByteOrder};
use mr_fields::ReadStop;

/// A number of four bytes, with nothing behind it but so many bytes that are no part of it.
pub fn lone_u32(bytes: &[u8], behind: usize) -> Result<u32, ReadStop>
    requires { length bytes.now + behind < 2 ^ 64 }
    ensures { GivesWhole result (lone_number_in 4 behind bytes.now) }
{
    if bytes.len() < 4 {
        return Err(ReadStop::Left(bytes.len() + behind));
    }
    if bytes.len() > 4 {
        return Err(ReadStop::Left(bytes.len() - 4 + behind));
    }
    Ok(BigEndian::read_u32(bytes))
}

/// A number of eight bytes, with nothing behind it.
pub fn lone_u64(bytes: &[u8]) -> Result<u64, ReadStop>
    ensures { GivesWhole result (lone_number_in 8 0 bytes.now) }
{
    if bytes.len() < 8 {
        return Err(ReadStop::Left(bytes.len()));
    }
    if bytes.len() > 8 {
        return Err(ReadStop::Left(bytes.len() - 8));
    }
    Ok(BigEndian::read_u64(bytes))
}
