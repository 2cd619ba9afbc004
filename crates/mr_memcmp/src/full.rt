//! Whole values, from what a key keeps and from the unpack data beside it.

ghost use Rattle.std.specs.Prelude.{◌≡◌};
ghost use Rattle.mr_types.specs.declared.value.Value.TheVariants.{Text};
ghost use Rattle.mr_pieces.specs.Reading.{text_in};
ghost use Rattle.mr_pieces.specs.UnpackReading.{unpack_read};
ghost use Rattle.mr_memcmp.specs.Reading.{as_text, full_read};
ghost use Rattle.mr_memcmp.specs.Kept.{kept_value, pieces_value, KeepsText, KeepsPieces, IsKept, TakesFull, LeavesWithin};

use crate::kept::Kept;
use mr_pieces::{BytesLeft, split_unpack};
use mr_types::{Collation, FieldRef, Kind, Pieces};

fn text_full<'a>(
    width: u16,
    collation: Collation,
    pieces: &'a [u8],
    unpack: &'a [u8],
) -> Result<(FieldRef<'a>, &'a [u8]), BytesLeft>
    requires { KeepsText collation pieces.now }
    ensures reads { TakesFull (Kind.VarChar width collation) result (as_text (unpack_read collation width (text_in collation pieces.now) unpack.now)) }
    ensures within { LeavesWithin unpack.now result }
{
    let (form, rest) = split_unpack(collation, width, pieces, unpack)?;
    let kind = Kind::VarChar(width, collation);
    Ok((FieldRef::Pieces(Pieces::new(pieces, form, kind)), rest))
}

fn pieces_full<'a>(
    kind: Kind,
    pieces: &'a [u8],
    unpack: &'a [u8],
) -> Result<(FieldRef<'a>, &'a [u8]), BytesLeft>
    requires { KeepsPieces kind pieces.now }
    ensures reads { TakesFull kind result (full_read kind (pieces_value kind pieces.now) unpack.now) }
    ensures within { LeavesWithin unpack.now result }
{
    match kind {
        Kind::VarChar(width, collation) => text_full(width, collation, pieces, unpack),
        _ => Ok((FieldRef::Pieces(Pieces::new(pieces, &[], kind)), unpack)),
    }
}

/// The whole value of what a key keeps of a column, and what is left of the unpack data.
pub fn full_at<'a>(
    kind: Kind,
    kept: Kept<'a>,
    unpack: &'a [u8],
) -> Result<(FieldRef<'a>, &'a [u8]), BytesLeft>
    requires { IsKept kind kept }
    ensures reads { TakesFull kind result (full_read kind (kept_value kind kept.entry) unpack.now) }
    ensures within { LeavesWithin unpack.now result }
{
    match kept {
        Kept::Null => Ok((FieldRef::Null, unpack)),
        Kept::Number(number) => Ok((FieldRef::Number(number), unpack)),
        Kept::Pieces(pieces) => pieces_full(kind, pieces, unpack),
    }
}
