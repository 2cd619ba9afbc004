//! Seconds, and lists of them, from text.

ghost use Rattle.std.specs.Prelude.{◌≡◌, IfOk};
ghost use Rattle.mr_moments.specs.Form.{with_digit as and_digit, seconds_of as seconds_in, values_of as values_in};

use mr_base::Memory;
use sqlite_items::Items;
use std::alloc::Global;

/// How many digits a number of seconds has at the most.
const MOST_DIGITS: usize = 20;

/// The number with one more digit behind it; None where it is no digit, or the number reaches 2^64.
fn with_digit(number: u64, byte: u8) -> Option<u64>
    ensures { result ≡ and_digit number byte }
{
    if !byte.is_ascii_digit() {
        return None;
    }
    let next = 10 * number as u128 + (byte - b'0') as u128;
    if next >= 1 << 64 {
        return None;
    }
    Some(next as u64)
}

/// The number that 1 to 20 decimal digits write; None where it reaches 2^64.
pub fn seconds_of(text: &[u8]) -> Option<u64>
    ensures { result ≡ seconds_in text.now }
{
    if text.is_empty() || text.len() > MOST_DIGITS {
        return None;
    }
    let mut number = 0;
    for byte in text {
        number = with_digit(number, *byte)?;
    }
    Some(number)
}

/// The values that stand between commas.
pub fn values_of(alloc: Global, text: &[u8]) -> Result<Option<Items<u64>>, Memory>
    ensures { IfOk result (λ values. values ≡ values_in text.now) }
{
    let mut values = Items::new(alloc);
    let mut part = Vec::new(alloc);
    for byte in text {
        if *byte == b',' {
            let Some(seconds) = seconds_of(part.as_slice()) else {
                return Ok(None);
            };
            values.push(seconds)?;
            part = Vec::new(alloc);
        } else {
            part.extend_from_slice(&[*byte])?;
        }
    }
    let Some(seconds) = seconds_of(part.as_slice()) else {
        return Ok(None);
    };
    values.push(seconds)?;
    Ok(Some(values))
}
