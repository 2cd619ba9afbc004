//! The order of values, over fields where they lie.

ghost use Rattle.std.specs.Prelude.{◌≡◌, length, slice_index_or};
ghost use Rattle.mr_pieces.specs.Order.{text_cmp, bytes_cmp};
ghost use Rattle.mr_types.specs.Order.{value_cmp};
ghost use Rattle.mr_types.specs.Values.{same_bytes, is_equal};
ghost use Rattle.mr_types.specs.FieldValues.{bytes_of, field_value, value_of_bytes, folded_byte, Common};

use crate::field::FieldRef;
use crate::kind::Kind;
use mr_lanes::{first_difference, upper_of};
use mr_pieces::Collation;
use std::cmp::Ordering;

/// The number of bytes of a text or of bytes.
fn length_of(field: &FieldRef<'_>) -> usize
    ensures { result ≡ length (bytes_of field.now) }
{
    match field {
        FieldRef::Null => 0,
        FieldRef::Number(_) => 0,
        FieldRef::Slice(slice) => slice.len(),
        FieldRef::Pieces(pieces) => pieces.len(),
    }
}

/// The byte at a place, or the filler where there is none.
fn byte_or(field: &FieldRef<'_>, at: usize, filler: u8) -> u8
    ensures { result ≡ slice_index_or (bytes_of field.now) at filler }
{
    match field {
        FieldRef::Null => filler,
        FieldRef::Number(_) => filler,
        FieldRef::Slice(slice) => { if at < slice.len() { slice[at] } else { filler } }
        FieldRef::Pieces(pieces) => {
            if at < pieces.len() {
                pieces.byte(at)
            } else {
                filler
            }
        }
    }
}

/// How many bytes are surely the same in front of both: all, where both lie in one piece.
fn common_front(left: &FieldRef<'_>, right: &FieldRef<'_>) -> usize
    ensures { Common (bytes_of left.now) (bytes_of right.now) result }
{
    match left {
        FieldRef::Slice(a) => match right {
            FieldRef::Slice(b) => first_difference(a, b),
            _ => 0,
        },
        _ => 0,
    }
}

/// A byte as its collation compares it.
fn folded_byte(collation: Collation, byte: u8) -> u8
    ensures { result ≡ folded_byte collation byte }
{
    match collation {
        Collation::Bin => byte,
        Collation::Ci => upper_of(byte),
    }
}

/// Texts, folded and the shorter one padded with spaces.
fn compare_texts(left: &FieldRef<'_>, right: &FieldRef<'_>, collation: Collation) -> Ordering
    ensures { result ≡ text_cmp collation (bytes_of left.now) (bytes_of right.now) }
{
    let end = length_of(left).max(length_of(right));
    let mut at = common_front(left, right);
    while at < end {
        let a = folded_byte(collation, byte_or(left, at, b' '));
        let b = folded_byte(collation, byte_or(right, at, b' '));
        if a != b {
            return a.cmp(&b);
        }
        at += 1;
    }
    Ordering::Equal
}

/// Bytes as words in a dictionary.
fn compare_bytes(left: &FieldRef<'_>, right: &FieldRef<'_>) -> Ordering
    ensures { result ≡ bytes_cmp (bytes_of left.now) (bytes_of right.now) }
{
    let end = length_of(left).min(length_of(right));
    let mut at = common_front(left, right);
    while at < end {
        let a = byte_or(left, at, 0);
        let b = byte_or(right, at, 0);
        if a != b {
            return a.cmp(&b);
        }
        at += 1;
    }
    length_of(left).cmp(&length_of(right))
}

fn compare_by_kind(left: &FieldRef<'_>, right: &FieldRef<'_>, kind: Kind) -> Ordering
    ensures { result ≡ value_cmp kind (value_of_bytes kind (bytes_of left.now)) (value_of_bytes kind (bytes_of right.now)) }
{
    match kind {
        Kind::VarChar(_, collation) => compare_texts(left, right, collation),
        _ => compare_bytes(left, right),
    }
}

/// The order of two fields of a column of this kind: NULL first, numbers by size, texts after
/// folding and padding with spaces, bytes as in a dictionary. Both are lent, so that one field is
/// compared with many.
pub fn compare_fields(left: &FieldRef<'_>, right: &FieldRef<'_>, kind: Kind) -> Ordering
    ensures { result ≡ value_cmp kind (field_value kind left.now) (field_value kind right.now) }
{
    match left {
        FieldRef::Null => match right {
            FieldRef::Null => Ordering::Equal,
            FieldRef::Number(_) | FieldRef::Slice(_) | FieldRef::Pieces(_) => Ordering::Less,
        },
        FieldRef::Number(a) => match right {
            FieldRef::Null => Ordering::Greater,
            FieldRef::Number(b) => a.cmp(b),
            FieldRef::Slice(_) | FieldRef::Pieces(_) => Ordering::Less,
        },
        _ => match right {
            FieldRef::Null => Ordering::Greater,
            FieldRef::Number(_) => Ordering::Greater,
            _ => compare_by_kind(left, right, kind),
        },
    }
}

/// As `compare_fields`, of fields that are used up.
pub fn compare(left: FieldRef<'_>, right: FieldRef<'_>, kind: Kind) -> Ordering
    ensures { result ≡ value_cmp kind (field_value kind left.entry) (field_value kind right.entry) }
{
    compare_fields(&left, &right, kind)
}

/// Whether two texts or lists of bytes are the same, byte for byte.
#[tactic(auto, using(crate::proofs::Alike::same_order))]
fn are_same_bytes(left: &FieldRef<'_>, right: &FieldRef<'_>) -> bool
    ensures { result ≡ same_bytes (bytes_of left.now) (bytes_of right.now) }
{
    compare_bytes(left, right).is_eq()
}

/// Whether two fields of a column of this kind hold the same value, byte for byte: letter case and
/// spaces at the end of a text count.
#[tactic(auto, using(crate::proofs::Alike::alike_of_bytes))]
pub fn is_equal_field(left: &FieldRef<'_>, right: &FieldRef<'_>, kind: Kind) -> bool
    ensures { result ≡ is_equal (field_value kind left.now) (field_value kind right.now) }
{
    match left {
        FieldRef::Null => matches!(right, FieldRef::Null),
        FieldRef::Number(a) => match right {
            FieldRef::Number(b) => !(*a < *b || *b < *a),
            _ => false,
        },
        _ => match right {
            FieldRef::Null => false,
            FieldRef::Number(_) => false,
            _ => are_same_bytes(left, right),
        },
    }
}
