//! Numbers as the command line has them.
ghost use Rattle.std.specs.Prelude.{◌≡◌};
ghost use Rattle.mr_words.specs.Form.{with_digit as and_digit, number_in, limit_in};

/// How many digits a number has at the most.
const MOST_DIGITS: usize = 20;

const LEAST_LIMIT: u64 = 4096;

const GREATEST_LIMIT: u64 = 1 << 40;

/// The number with one more digit behind it.
fn with_digit(number: u64, byte: u8) -> Option<u64>
    ensures { result ≡ and_digit number byte }
{
    if !byte.is_ascii_digit() {
        return None;
    }
    let next = 10 * number as u128 + (byte - b'0') as u128;
    if next >= 1 << 64 {
        return None;
    }
    Some(next as u64)
}

/// The number that 1 to 20 decimal digits write; None where it reaches 2^64.
pub(crate) fn number_of(text: &[u8]) -> Option<u64>
    ensures { result ≡ number_in text.now }
{
    if text.is_empty() || text.len() > MOST_DIGITS {
        return None;
    }
    let mut number = 0;
    'digits: for byte in text {
        number = with_digit(number, *byte)?;
    }
    Some(number)
}

/// The length that the log is not to pass.
pub(crate) fn limit_of(text: &[u8]) -> Option<u64>
    ensures { result ≡ limit_in text.now }
{
    let limit = number_of(text)?;
    if limit < LEAST_LIMIT || limit > GREATEST_LIMIT {
        return None;
    }
    Some(limit)
}
