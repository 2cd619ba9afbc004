//! One version in a block.
ghost use Rattle.std.specs.Prelude.{◌≡◌, ◌≤◌, length, IfOk, IfErr};
ghost use Rattle.mr_block.specs.Fields.{number_given, bytes_given, number_in};
ghost use Rattle.mr_block.specs.Block.{kind_in, value_length_in, key_in, entry_in};
ghost use Rattle.mr_block.specs.Given.{kind_given, entry_given};

use crate::fields::{BytesLeft, bytes_of, u32_in, u64_in};

/// A version whose key and value are lent from the block.
#[derive(Clone, Copy)]
pub struct Entry<'a> {
    pub key: &'a [u8],
    pub sequence: u64,
    pub is_put: bool,
    pub value: &'a [u8],
}

/// Whether it is a put, from the byte that says so.
fn kind_of(bytes: &[u8]) -> Result<(bool, &[u8]), BytesLeft>
    ensures read { kind_given result ≡ kind_in bytes.now }
    ensures rest { IfOk result (λ r. length r.1.now ≤ length bytes.now) }
    ensures left { IfErr result (λ left. left ≤ length bytes.now) }
{
    match bytes {
        [1, rest @ ..] => Ok((true, rest)),
        [2, rest @ ..] => Ok((false, rest)),
        _ => Err(bytes.len()),
    }
}

/// The length of the value, which a deletion has not.
fn value_length_of(is_put: bool, bytes: &[u8]) -> Result<(u32, &[u8]), BytesLeft>
    ensures read { number_given result ≡ value_length_in is_put bytes.now }
    ensures rest { IfOk result (λ r. length r.1.now ≤ length bytes.now) }
    ensures left { IfErr result (λ left. left ≤ length bytes.now) }
{
    let (size, rest) = u32_in(bytes)?;
    if !is_put && size != 0 {
        return Err(bytes.len());
    }
    Ok((size, rest))
}

/// The key of the entry in front.
pub fn key_of(bytes: &[u8]) -> Result<(&[u8], &[u8]), BytesLeft>
    ensures { bytes_given result ≡ key_in bytes.now }
{
    let (size, rest) = u32_in(bytes)?;
    bytes_of(size as usize, rest)
}

/// The entry in front.
pub fn entry_of(bytes: &[u8]) -> Result<(Entry<'_>, &[u8]), BytesLeft>
    ensures read { entry_given result ≡ entry_in bytes.now }
    ensures rest { IfOk result (λ r. length r.1.now ≤ length bytes.now) }
    ensures left { IfErr result (λ left. left ≤ length bytes.now) }
{
    let (size, rest) = u32_in(bytes)?;
    let (key, rest) = bytes_of(size as usize, rest)?;
    let (sequence, rest) = u64_in(rest)?;
    let (is_put, rest) = kind_of(rest)?;
    let (count, rest) = value_length_of(is_put, rest)?;
    let (value, rest) = bytes_of(count as usize, rest)?;
    Ok((
        Entry {
            key,
            sequence,
            is_put,
            value,
        },
        rest,
    ))
}
