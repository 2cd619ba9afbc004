//! Reading an unpack form back, beside the pieces of its text.

ghost use Rattle.std.specs.Prelude.{◌≡◌, ◌≤◌, ◌<◌, ◌+◌, ◌-◌, ◌*◌, ◌/◌, ◌%◌, ◌^◌, ◌==◌, ℕ, List, length, take, true};
ghost use Rattle.mr_pieces.specs.Pieces.{text_from};
ghost use Rattle.mr_pieces.specs.Reading.{text_in, IsShortened};
ghost use Rattle.mr_pieces.specs.Unpack.{bits_value, lower_bit, lower_one, lower_by};
ghost use Rattle.mr_pieces.specs.UnpackReading.{bits_room, are_bits_of, unpack_read, TakesUnpack};

use crate::collation::Collation;
use crate::places::{shortened_length, spaces_of};
use crate::reader::BytesLeft;

/// The bit of the letter that this one becomes where its bit is set.
fn bit_again(letter: u8, bits: u8, at: usize) -> u8
    requires { at < 8 }
    ensures { result ≡ lower_bit (lower_one (bits / 2 ^ at % 2) letter) }
{
    let first = if (bits >> at) % 2 == 1 { b'A' } else { b'a' };
    if letter >= first && letter - first <= 25 {
        1
    } else {
        0
    }
}

/// Whether these are the bits of at most 8 bytes that fold to the piece.
fn are_bits(piece: &[u8], bits: u8) -> bool
    requires { length piece.now ≤ 8 }
    ensures { result ≡ (bits_value (lower_by bits piece.now) == bits) }
{
    let mut again = 0u8;
    let mut at = piece.len();
    while at > 0 {
        at -= 1;
        again = 2 * again + bit_again(piece[at], bits, at);
    }
    again == bits
}

/// Whether these are the bits of a text that folds to the one of `count` bytes in the pieces.
fn are_case_bits(pieces: &[u8], count: usize, bits: &[u8]) -> bool
    requires room { (count + 7) / 8 ≡ length bits.now }
    requires whole { count ≤ length pieces.now / 9 * 8 }
    ensures { (text : List ℕ) → pieces.now ≡ text_from 8 text → length text ≡ count → result ≡ are_bits_of text bits.now }
{
    for (number, byte) in bits.iter().enumerate() {
        let start = 9 * number;
        let size = 8usize.min(count - 8 * number);
        if !are_bits(&pieces[start..start + size], *byte) {
            return false;
        }
    }
    true
}

/// The unpack form of a text of at most `width` bytes whose pieces these are, and what stands
/// behind it.
pub fn split_unpack<'a>(
    collation: Collation,
    width: u16,
    pieces: &[u8],
    unpack: &'a [u8],
) -> Result<(&'a [u8], &'a [u8]), BytesLeft>
    requires spelled { pieces.now ≡ text_from 8 (text_in collation pieces.now) }
    requires shortened { IsShortened collation (text_in collation pieces.now) }
    ensures { TakesUnpack collation pieces.now unpack.now result (unpack_read collation width (text_in collation pieces.now) unpack.now) }
{
    if unpack.len() < 2 {
        return Err(unpack.len());
    }
    let count = shortened_length(pieces);
    if count > width as usize || spaces_of(unpack) > width as usize - count {
        return Err(unpack.len());
    }
    match collation {
        Collation::Bin => Ok(unpack.split_at(2)),
        Collation::Ci => {
            let room = (count + 7) / 8;
            if room > unpack.len() - 2 || !are_case_bits(pieces, count, &unpack[2..2 + room]) {
                return Err(unpack.len() - 2);
            }
            Ok(unpack.split_at(2 + room))
        }
    }
}
