//! What a key keeps of its columns, by the key alone.

ghost use Rattle.std.specs.Prelude.{◌≡◌, ◌≤◌, List, ℕ, length, pos, true};
ghost use Rattle.std.specs.Int.{w32, w64};
ghost use Rattle.mr_types.specs.declared.value.Value.TheVariants.{Text, Bytes};
ghost use Rattle.mr_pieces.specs.Reading.{text_in, bytes_read, text_read};
ghost use Rattle.mr_memcmp.specs.Reading.{as_number, number_read, unflipped, of_length, kind_read, kept_read};
ghost use Rattle.mr_memcmp.specs.Kept.{KeepsText, TakesKept, LeavesBy, LeavesWithin};

use crate::number::{u32_at, u64_at, unflipped_32, unflipped_64};
use mr_lanes::trailing_spaces;
use mr_pieces::{BytesLeft, bytes_length, split_bytes, split_text};
use mr_types::{Collation, ColumnType, Kind};

/// What a key keeps of a column: of a text or of bytes the whole pieces.
#[derive(Clone, Copy, Drop)]
pub enum Kept<'a> {
    Null,
    Number(i128),
    Pieces(&'a [u8]),
}

/// The length of the shortened text in these pieces.
fn kept_length(collation: Collation, pieces: &[u8]) -> usize
    requires { KeepsText collation pieces.now }
    ensures { result ≡ length (text_in collation pieces.now) }
{
    let end = pieces.len() - 1;
    pieces.len() / 9 * 8 - trailing_spaces(&pieces[end - 8..end])
}

fn int_at(kind: Kind, key: &[u8]) -> Result<(Kept<'_>, &[u8]), BytesLeft>
    ensures reads { TakesKept kind result (as_number (unflipped 31) (number_read w32 key.now)) }
    ensures within { LeavesWithin key.now result }
{
    let (number, rest) = u32_at(key)?;
    Ok((Kept::Number(unflipped_32(number)), rest))
}

fn int_unsigned_at(kind: Kind, key: &[u8]) -> Result<(Kept<'_>, &[u8]), BytesLeft>
    ensures reads { TakesKept kind result (as_number pos (number_read w32 key.now)) }
    ensures within { LeavesWithin key.now result }
{
    let (number, rest) = u32_at(key)?;
    Ok((Kept::Number(number as i128), rest))
}

fn big_at(kind: Kind, key: &[u8]) -> Result<(Kept<'_>, &[u8]), BytesLeft>
    ensures reads { TakesKept kind result (as_number (unflipped 63) (number_read w64 key.now)) }
    ensures within { LeavesWithin key.now result }
{
    let (number, rest) = u64_at(key)?;
    Ok((Kept::Number(unflipped_64(number)), rest))
}

fn big_unsigned_at(kind: Kind, key: &[u8]) -> Result<(Kept<'_>, &[u8]), BytesLeft>
    ensures reads { TakesKept kind result (as_number pos (number_read w64 key.now)) }
    ensures within { LeavesWithin key.now result }
{
    let (number, rest) = u64_at(key)?;
    Ok((Kept::Number(number as i128), rest))
}

/// Bytes of a column that begins `start` bytes before the end.
fn bytes_at(start: usize, width: u16, key: &[u8]) -> Result<(Kept<'_>, &[u8]), BytesLeft>
    ensures reads { TakesKept (Kind.VarBinary width) result (of_length start width Bytes (bytes_read true key.now)) }
    ensures within { length key.now ≤ start → LeavesBy start key.now result }
{
    let (pieces, rest) = split_bytes(key)?;
    if bytes_length(pieces) > width as usize {
        return Err(start);
    }
    Ok((Kept::Pieces(pieces), rest))
}

/// A text of a column that begins `start` bytes before the end.
fn text_at(
    start: usize,
    width: u16,
    collation: Collation,
    key: &[u8],
) -> Result<(Kept<'_>, &[u8]), BytesLeft>
    ensures reads { TakesKept (Kind.VarChar width collation) result (of_length start width Text (text_read collation key.now)) }
    ensures within { length key.now ≤ start → LeavesBy start key.now result }
{
    let (pieces, rest) = split_text(collation, key)?;
    if kept_length(collation, pieces) > width as usize {
        return Err(start);
    }
    Ok((Kept::Pieces(pieces), rest))
}

/// A value of the kind in a column that begins `start` bytes before the end.
#[tactic(auto, unfolding(crate::specs::Reading::kind_read))]
fn value_at(start: usize, kind: Kind, key: &[u8]) -> Result<(Kept<'_>, &[u8]), BytesLeft>
    ensures reads { TakesKept kind result (kind_read start kind key.now) }
    ensures within { length key.now ≤ start → LeavesBy start key.now result }
{
    match kind {
        Kind::Int => int_at(kind, key),
        Kind::IntUnsigned => int_unsigned_at(kind, key),
        Kind::BigInt => big_at(kind, key),
        Kind::BigIntUnsigned => big_unsigned_at(kind, key),
        Kind::VarChar(width, collation) => text_at(start, width, collation, key),
        Kind::VarBinary(width) => bytes_at(start, width, key),
    }
}

/// What stands of a column in front of a key, and what stands behind it.
#[tactic(auto, unfolding(crate::specs::Reading::kept_read))]
pub fn kept_at(column: ColumnType, key: &[u8]) -> Result<(Kept<'_>, &[u8]), BytesLeft>
    ensures reads { TakesKept column.kind result (kept_read column key.now) }
    ensures within { LeavesWithin key.now result }
{
    if !column.nullable {
        return value_at(key.len(), column.kind, key);
    }
    match key {
        [] => Err(0),
        [0, rest @ ..] => Ok((Kept::Null, rest)),
        [1, rest @ ..] => value_at(key.len(), column.kind, rest),
        [_, ..] => Err(key.len()),
    }
}
