//! Numbers in front of bytes, the highest byte first.

ghost use Rattle.std.specs.Prelude.{◌≡◌};
ghost use Rattle.std.specs.Int.{w32, w64};
ghost use Rattle.mr_memcmp.specs.Reading.{number_read, unflipped};
ghost use Rattle.mr_memcmp.specs.Kept.{TakesNumber, LeavesWithin};

use mr_pieces::BytesLeft;

/// The number in the first four bytes, and what stands behind it.
pub fn u32_at(key: &[u8]) -> Result<(u32, &[u8]), BytesLeft>
    ensures reads { TakesNumber result (number_read w32 key.now) }
    ensures within { LeavesWithin key.now result }
{
    if key.len() < 4 {
        return Err(key.len());
    }
    let (front, rest) = key.split_at(4);
    let number = u32::from_be_bytes([front[0], front[1], front[2], front[3]]);
    Ok((number, rest))
}

/// The number in the first eight bytes, and what stands behind it.
pub fn u64_at(key: &[u8]) -> Result<(u64, &[u8]), BytesLeft>
    ensures reads { TakesNumber result (number_read w64 key.now) }
    ensures within { LeavesWithin key.now result }
{
    if key.len() < 8 {
        return Err(key.len());
    }
    let (front, rest) = key.split_at(8);
    let number = u64::from_be_bytes([
        front[0], front[1], front[2], front[3], front[4], front[5], front[6], front[7],
    ]);
    Ok((number, rest))
}

pub(crate) fn unflipped_32(number: u32) -> i128
    ensures { result ≡ unflipped 31 number }
{
    number as i128 - 0x8000_0000
}

pub(crate) fn unflipped_64(number: u64) -> i128
    ensures { result ≡ unflipped 63 number }
{
    number as i128 - 0x8000_0000_0000_0000
}
