//! The unpack form: what pieces drop of a text, the spaces at its end and its letter case.
//!
//! The number of spaces as a u16, and for a text that is folded one bit per byte of the shortened
//! text, least significant first, set where the byte was a lower-case letter.

ghost use Rattle.std.specs.Prelude.{◌≡◌, ◌<◌, ◌≤◌, ◌^◌, ◌++◌, length, OnOk};
ghost use Rattle.std.specs.List.{suffix_len};
ghost use Rattle.mr_lanes.specs.Kernels.{is_space};
ghost use Rattle.mr_pieces.specs.Pieces.{trimmed};
ghost use Rattle.mr_pieces.specs.Unpack.{lower_bit, bits_value, bits_of, case_bits, unpack_form};

use crate::collation::Collation;
use mr_lanes::trailing_spaces;
use std::alloc::AllocError;

fn lower_bit_of(b: u8) -> u8
    ensures { result ≡ lower_bit b }
{
    if b >= b'a' && b <= b'z' { 1 } else { 0 }
}

/// A bit per byte, the least significant first.
fn bits_byte(part: &[u8]) -> u8
    requires { length part.now ≤ 8 }
    ensures { result ≡ bits_value part.now }
{
    let mut bits = 0u8;
    let mut at = part.len();
    while at > 0 {
        at -= 1;
        bits = 2 * bits + lower_bit_of(part[at]);
    }
    bits
}

fn push_bits(out: &mut Vec<u8>, text: &[u8]) -> Result<(), AllocError>
    ensures { OnOk result (out.new.items ≡ out.old.items ++ bits_of text.now) }
{
    let mut rest = text;
    while rest.len() > 0 {
        let (part, after) = rest.split_at(8usize.min(rest.len()));
        out.push(bits_byte(part))?;
        rest = after;
    }
    Ok(())
}

fn push_case(out: &mut Vec<u8>, collation: Collation, text: &[u8]) -> Result<(), AllocError>
    ensures { OnOk result (out.new.items ≡ out.old.items ++ case_bits collation text.now) }
{
    match collation {
        Collation::Bin => Ok(()),
        Collation::Ci => push_bits(out, text),
    }
}

/// The text without the spaces at its end, and how many there are.
fn split_spaces(text: &[u8]) -> (&[u8], usize)
    ensures shortened { result.0.now ≡ trimmed text.now }
    ensures spaces { result.1 ≡ suffix_len is_space text.now }
    ensures within { result.1 ≤ length text.now }
{
    let spaces = trailing_spaces(text);
    (&text[..text.len() - spaces], spaces)
}

/// Adds the unpack form of a text of at most 65,535 bytes.
pub fn push_unpack(out: &mut Vec<u8>, collation: Collation, text: &[u8]) -> Result<(), AllocError>
    requires { length text.now < 2 ^ 16 }
    ensures { OnOk result (out.new.items ≡ out.old.items ++ unpack_form collation text.now) }
{
    let (shortened, spaces) = split_spaces(text);
    out.extend_from_slice(&(spaces as u16).to_be_bytes())?;
    push_case(out, collation, shortened)?;
    Ok(())
}
