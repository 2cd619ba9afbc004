//! The columns of a row's value that aren't in the key.

ghost use Rattle.std.specs.Prelude.{◌≡◌, ◌≤◌, ◌<◌, ℕ, List, Bool, Some, Ok, true, false, length};
ghost use Rattle.mr_types.specs.declared.value.Value.{Value};
ghost use Rattle.mr_types.specs.FieldValues.{field_value};
ghost use Rattle.mr_rowval.specs.NullBits.{nullable_count, flags_read};
ghost use Rattle.mr_rowval.specs.KeyParts.{Held, is_in, behind};
ghost use Rattle.mr_rowval.specs.RowValue.{field_read, fields_read};
ghost use Rattle.mr_rowval.specs.Walking.{Skips, ReadTo, LeavesRest, kind_at, value_at};

use crate::key::is_in;
use crate::nulls::{Bits, column_flag};
use crate::plain::plain_at;
use mr_pieces::BytesLeft;
use mr_types::{ColumnDef, FieldRef, Kind};

/// What stands behind a column.
fn skip_field(in_key: bool, is_null: bool, kind: Kind, bytes: &[u8]) -> Result<&[u8], BytesLeft>
    ensures { (held : Value) → Skips bytes.now result (behind (field_read in_key is_null held kind bytes.now)) }
{
    if in_key {
        return Ok(bytes);
    }
    if is_null {
        return Ok(bytes);
    }
    match plain_at(kind, bytes) {
        Err(left) => Err(left),
        Ok((_, rest)) => Ok(rest),
    }
}

/// Goes over the columns before one: the null bits and the bytes from it on.
pub fn read_to<'a>(
    columns: &[ColumnDef],
    places: &[u8],
    end: usize,
    nulls: &'a [u8],
    bytes: &'a [u8],
) -> Result<(Bits<'a>, &'a [u8]), BytesLeft>
    requires { end ≤ length columns.now }
    ensures reads { (held : Held) (flags : List Bool) (after : List ℕ) → flags_read (nullable_count columns.now) 0 0 nulls.now ≡ Some (flags, after) → ReadTo columns.now places.now end flags bytes.now held after result }
    ensures within { LeavesRest bytes.now result }
{
    let mut bits = Bits {
        left: 0,
        byte: 0,
        rest: nulls,
    };
    let mut rest = bytes;
    for at in 0..end {
        let column = columns[at].ty;
        let (is_null, next) = column_flag(column.nullable, bits);
        match skip_field(is_in(places, at), is_null, column.kind, rest) {
            Err(left) => return Err(left),
            Ok(behind) => {
                rest = behind;
                bits = next;
            }
        }
    }
    Ok((bits, rest))
}

/// The column at a place, which isn't in the key, of a row that was read before.
pub fn plain_field<'a>(
    columns: &[ColumnDef],
    places: &[u8],
    place: usize,
    nulls: &'a [u8],
    bytes: &'a [u8],
) -> FieldRef<'a>
    requires within { place < length columns.now }
    requires not_in { is_in places.now place ≡ false }
    ensures { (held : Held) (flags : List Bool) (after : List ℕ) (fields : List Value) (rest : List ℕ) → flags_read (nullable_count columns.now) 0 0 nulls.now ≡ Some (flags, after) → fields_read places.now held 0 columns.now flags bytes.now ≡ Ok (fields, rest) → field_value (kind_at columns.now place) result ≡ value_at fields place }
{
    match read_to(columns, places, place, nulls, bytes) {
        Err(_) => FieldRef::Null,
        Ok((bits, rest)) => {
            let column = columns[place].ty;
            let (is_null, _) = column_flag(column.nullable, bits);
            if is_null {
                return FieldRef::Null;
            }
            match plain_at(column.kind, rest) {
                Err(_) => FieldRef::Null,
                Ok((field, _)) => field,
            }
        }
    }
}
