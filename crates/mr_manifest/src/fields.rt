//! Fields in front of a list of bytes.
ghost use Rattle.std.specs.Prelude.{◌≡◌, ◌≤◌, length, IfOk, IfErr};
ghost use Rattle.mr_manifest.specs.Fields.{number_in, number_given};

use byteorder::{BigEndian, ByteOrder};

/// How many bytes are left from the first byte of the field that breaks its rule or isn't whole.
pub type BytesLeft = usize;

pub fn u32_in(bytes: &[u8]) -> Result<(u32, &[u8]), BytesLeft>
    ensures read { number_given result ≡ number_in 4 bytes.now }
    ensures rest { IfOk result (λ r. length r.1.now ≤ length bytes.now) }
    ensures left { IfErr result (λ left. left ≤ length bytes.now) }
{
    if bytes.len() < 4 {
        return Err(bytes.len());
    }
    Ok((BigEndian::read_u32(bytes), &bytes[4..]))
}

pub fn u64_in(bytes: &[u8]) -> Result<(u64, &[u8]), BytesLeft>
    ensures read { number_given result ≡ number_in 8 bytes.now }
    ensures rest { IfOk result (λ r. length r.1.now ≤ length bytes.now) }
    ensures left { IfErr result (λ left. left ≤ length bytes.now) }
{
    if bytes.len() < 8 {
        return Err(bytes.len());
    }
    Ok((BigEndian::read_u64(bytes), &bytes[8..]))
}
