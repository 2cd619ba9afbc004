//! Where the columns of a row lie.

ghost use Rattle.std.specs.Prelude.{◌≡◌, ◌<◌, ◌^◌, ℕ, List, Bool, Some, Ok, length};
ghost use Rattle.mr_types.specs.declared.value.Value.{Value};
ghost use Rattle.mr_types.specs.FieldValues.{field_value};
ghost use Rattle.mr_rowval.specs.NullBits.{nullable_count, flags_read};
ghost use Rattle.mr_rowval.specs.KeyParts.{Held};
ghost use Rattle.mr_rowval.specs.Plain.{plain_read};
ghost use Rattle.mr_rowval.specs.RowValue.{field_read, fields_read};
ghost use Rattle.mr_rowval.specs.Parts.{Ends, spot_of, AreSpots, IsSpot};

use crate::key::is_in;
use crate::nulls::{Bits, column_flag};
use crate::plain::plain_at;
use mr_types::{ColumnDef, FieldRef, Kind};

/// Where the parts of a row lie in its value: where the unpack data begin, and each of the first
/// 64 columns that isn't in the key, 0 for NULL, else one more than the number of bytes before it.
/// The stamp and the hidden number stand in it. It takes no memory, and fits one pair of a key and
/// a value alone.
#[derive(Clone, Copy, Drop)]
pub struct RowParts {
    pub(crate) hidden: Option<u64>,
    pub(crate) stamp: Option<u64>,
    pub(crate) unpack: usize,
    pub(crate) spots: [usize; 64],
}

fn spot_of(is_null: bool, at: usize) -> usize
    requires { at < 2 ^ 63 }
    ensures { result ≡ spot_of is_null at }
{
    if is_null { 0 } else { at + 1 }
}

/// A column that was read before, and what stands behind it.
fn plain_look(kind: Kind, bytes: &[u8]) -> (FieldRef<'_>, &[u8])
    ensures { (value : Value) (rest : List ℕ) → plain_read kind bytes.now ≡ Ok (value, rest) → (field_value kind result.0 ≡ value) × (result.1.now ≡ rest) }
{
    match plain_at(kind, bytes) {
        Ok(read) => read,
        Err(_) => (FieldRef::Null, bytes),
    }
}

/// What stands behind a column that was read before.
fn behind_field(in_key: bool, is_null: bool, kind: Kind, bytes: &[u8]) -> &[u8]
    ensures { (held : Value) (x : Value × List ℕ) → field_read in_key is_null held kind bytes.now ≡ Ok x → result.now ≡ x.1 }
{
    if in_key {
        return bytes;
    }
    if is_null {
        return bytes;
    }
    let (_, rest) = plain_look(kind, bytes);
    rest
}

/// The column at its spot.
pub(crate) fn spot_field(kind: Kind, value: &[u8], spot: usize) -> FieldRef<'_>
    ensures { (field : Value) → IsSpot kind value.now field spot → field_value kind result ≡ field }
{
    if spot == 0 || spot - 1 > value.len() {
        return FieldRef::Null;
    }
    let (field, _) = plain_look(kind, &value[spot - 1..]);
    field
}

/// The spots of a row that was read before: `plain` are the bytes of the columns, with which the
/// value ends.
pub(crate) fn plain_spots(
    columns: &[ColumnDef],
    places: &[u8],
    nulls: &[u8],
    plain: &[u8],
    value: &[u8],
) -> [usize; 64]
    ensures { (held : Held) (flags : List Bool) (after : List ℕ) (fields : List Value) (rest : List ℕ) → Ends value.now plain.now → flags_read (nullable_count columns.now) 0 0 nulls.now ≡ Some (flags, after) → fields_read places.now held 0 columns.now flags plain.now ≡ Ok (fields, rest) → AreSpots columns.now places.now value.now fields result 64 }
{
    let mut spots = [0usize; 64];
    let mut bits = Bits {
        left: 0,
        byte: 0,
        rest: nulls,
    };
    let mut rest = plain;
    for at in 0..columns.len().min(64) {
        let column = columns[at].ty;
        let (is_null, next) = column_flag(column.nullable, bits);
        spots[at] = spot_of(is_null, value.len().saturating_sub(rest.len()));
        rest = behind_field(is_in(places, at), is_null, column.kind, rest);
        bits = next;
    }
    spots
}
