//! What stands in quotes.

ghost use Rattle.std.specs.Prelude.{◌≡◌, ◌≤◌, ◌<◌, length, drop, IfSome};
ghost use Rattle.mr_lex.specs.Fronts.{quoted_end, pairs_end, text_front, pairs_front};
ghost use Rattle.mr_lex.specs.Quoted.{name_count};

use crate::bytes::{is_hex_digit, is_within};

/// The opening quote stands in front: the place behind the one that closes. None where nothing closes, or where a
/// byte stands that isn't from `least` to `most`.
pub(crate) fn quoted_len(
    bytes: &[u8],
    quote: u8,
    escapes: bool,
    least: u8,
    most: u8,
) -> Option<usize>
    ensures past { IfSome result (λ n. 1 < n) }
    ensures within { IfSome result (λ n. n ≤ length bytes.now) }
    ensures len { result ≡ quoted_end quote escapes least most 1 (drop 1 bytes.now) }
{
    let mut at = 1;
    while at < bytes.len() {
        let byte = bytes[at];
        let is_pair = at + 1 < bytes.len();
        if byte == quote {
            if is_pair && bytes[at + 1] == quote {
                at += 2;
            } else {
                return Some(at + 1);
            }
        } else if escapes && byte == b'\\' {
            if is_pair && is_within(least, most, bytes[at + 1]) {
                at += 2;
            } else {
                return None;
            }
        } else if is_within(least, most, byte) {
            at += 1;
        } else {
            return None;
        }
    }
    None
}

/// How many bytes a name has that stands in front of its closing backtick: a doubled one counts once.
pub(crate) fn name_len(bytes: &[u8]) -> usize
    ensures within { result ≤ length bytes.now }
    ensures count { result ≡ name_count bytes.now }
{
    let mut at = 0;
    let mut count = 0;
    while at + 1 < bytes.len() {
        at += if bytes[at] == b'`' { 2 } else { 1 };
        count += 1;
    }
    count
}

/// The same for pairs of hexadecimal digits.
fn pairs_len(bytes: &[u8]) -> Option<usize>
    ensures within { IfSome result (λ n. n ≤ length bytes.now) }
    ensures len { result ≡ pairs_end 1 (drop 1 bytes.now) }
{
    let mut at = 1;
    while at < bytes.len() {
        if bytes[at] == b'\'' {
            return Some(at + 1);
        }
        if at + 1 < bytes.len() && is_hex_digit(bytes[at]) && is_hex_digit(bytes[at + 1]) {
            at += 2;
        } else {
            return None;
        }
    }
    None
}

/// The length of a text in front, of bytes up to `most`.
pub(crate) fn text_len(bytes: &[u8], most: u8) -> Option<usize>
    ensures within { IfSome result (λ n. n ≤ length bytes.now) }
    ensures len { result ≡ text_front most bytes.now }
{
    match bytes {
        [quote, ..] if *quote == b'\'' || *quote == b'"' => quoted_len(
            bytes, *quote, true, 0, most,
        ),
        _ => None,
    }
}

/// The length of pairs of hexadecimal digits in quotes in front.
pub(crate) fn quoted_pairs_len(bytes: &[u8]) -> Option<usize>
    ensures within { IfSome result (λ n. n ≤ length bytes.now) }
    ensures len { result ≡ pairs_front bytes.now }
{
    match bytes {
        [first, ..] if *first == b'\'' => pairs_len(bytes),
        _ => None,
    }
}
