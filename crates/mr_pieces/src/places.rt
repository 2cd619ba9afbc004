//! A text or bytes as they lie in a key: their length, and the byte at a place, without a copy.

ghost use Rattle.std.specs.Prelude.{◌≡◌, ◌<◌, ◌≤◌, ◌-◌, ◌/◌, ◌%◌, ◌^◌, ℕ, List, length, slice_index, take};
ghost use Rattle.mr_lanes.specs.Kernels.{upper};
ghost use Rattle.std.specs.Int.{w16, from_be_bytes};
ghost use Rattle.mr_pieces.specs.Lying.{text_of, HoldsBytes, HoldsText};
ghost use Rattle.mr_pieces.specs.Pieces.{text_from, trimmed};
ghost use Rattle.mr_pieces.specs.Reading.{bytes_in};
ghost use Rattle.mr_pieces.specs.Unpack.{lower_bit};

use crate::collation::Collation;
use mr_lanes::trailing_spaces;

/// The length of bytes in these pieces.
pub fn bytes_length(pieces: &[u8]) -> usize
    requires { HoldsBytes pieces.now }
    ensures { result ≡ length (bytes_in pieces.now) }
{
    pieces.len() / 9 * 8 - 8 + pieces[pieces.len() - 1] as usize
}

/// The byte at a place of bytes in these pieces.
pub fn bytes_byte(pieces: &[u8], at: usize) -> u8
    requires holds { HoldsBytes pieces.now }
    requires within { at < length (bytes_in pieces.now) }
    ensures { result ≡ slice_index (bytes_in pieces.now) at }
{
    pieces[at + at / 8]
}

/// The length of the shortened text in these pieces: up to the padding of the last one.
pub(crate) fn shortened_length(pieces: &[u8]) -> usize
    requires { 9 ≤ length pieces.now }
    ensures { (text : List ℕ) → pieces.now ≡ text_from 8 text → trimmed text ≡ text → result ≡ length text }
{
    let end = pieces.len() - 1;
    pieces.len() / 9 * 8 - trailing_spaces(&pieces[end - 8..end])
}

/// The number of spaces that an unpack form says.
pub(crate) fn spaces_of(unpack: &[u8]) -> usize
    requires { 2 ≤ length unpack.now }
    ensures { result ≡ from_be_bytes w16 (take 2 unpack.now) }
{
    u16::from_be_bytes([unpack[0], unpack[1]]) as usize
}

/// The letter as it was before it was folded, where the bit says that it was a lower-case one.
fn unfolded(letter: u8, bits: u8, at: usize) -> u8
    requires { at < 8 }
    ensures { (was : ℕ) → letter ≡ upper was → bits / 2 ^ at % 2 ≡ lower_bit was → result ≡ was }
{
    if letter >= b'A' && letter <= b'Z' && (bits >> at) % 2 == 1 {
        letter + 32
    } else {
        letter
    }
}

/// The length of the text in these pieces, the spaces at its end among it.
pub fn text_length(collation: Collation, pieces: &[u8], unpack: &[u8]) -> usize
    requires { HoldsText collation pieces.now unpack.now }
    ensures { result ≡ length (text_of collation pieces.now unpack.now) }
{
    shortened_length(pieces) + spaces_of(unpack)
}

/// The byte at a place of the text in these pieces, in the letter case that it had.
pub fn text_byte(collation: Collation, pieces: &[u8], unpack: &[u8], at: usize) -> u8
    requires holds { HoldsText collation pieces.now unpack.now }
    requires within { at < length (text_of collation pieces.now unpack.now) }
    ensures { result ≡ slice_index (text_of collation pieces.now unpack.now) at }
{
    if at >= shortened_length(pieces) {
        return b' ';
    }
    let letter = pieces[at + at / 8];
    match collation {
        Collation::Bin => letter,
        Collation::Ci => unfolded(letter, unpack[2 + at / 8], at % 8),
    }
}
