//! The columns of a key, and the unpack data beside them.

ghost use Rattle.std.specs.Prelude.{◌≡◌, ℕ, List, Ok, length, slice_get};
ghost use Rattle.std.specs.Option.{option_copied};
ghost use Rattle.mr_rowval.specs.KeyParts.{Held, part_kept, parts_kept, wanted_read, key_read, part_full, parts_full, found, is_in};
ghost use Rattle.mr_types.specs.FieldValues.{field_value};
ghost use Rattle.mr_rowval.specs.Walking.{behind_of, Skips, kind_at, kind_of_column, is_held_at, TakesPart, TakesWanted, TakesKey};

use mr_memcmp::{full_at, kept_at, u32_at, u64_at};
use mr_pieces::BytesLeft;
use mr_types::{ColumnDef, FieldRef};
use sqlite_items::at;

/// Whether a column's place is among these.
pub fn is_in(places: &[u8], at: usize) -> bool
    ensures { result ≡ is_in places.now at }
{
    places.iter().any(|place| *place as usize == at)
}

/// What stands behind a column; there are no bytes of a place past the last column.
fn part_kept<'a>(column: Option<&ColumnDef>, key: &'a [u8]) -> Result<&'a [u8], BytesLeft>
    ensures { Skips key.now result (part_kept (option_copied column.entry) key.now) }
{
    match column {
        None => Ok(key),
        Some(column) => {
            let (_, rest) = kept_at(column.ty, key)?;
            Ok(rest)
        }
    }
}

/// What stands behind the columns at these places.
fn parts_kept<'a>(
    columns: &[ColumnDef],
    places: &[u8],
    key: &'a [u8],
) -> Result<&'a [u8], BytesLeft>
    ensures { Skips key.now result (parts_kept columns.now places.now key.now) }
{
    let mut rest = key;
    for place in places {
        rest = part_kept(at(columns, *place as usize), rest)?;
    }
    Ok(rest)
}

/// A number of eight bytes where one is wanted.
pub fn wanted_at(wanted: bool, bytes: &[u8]) -> Result<(Option<u64>, &[u8]), BytesLeft>
    ensures { TakesWanted bytes.now result (wanted_read wanted bytes.now) }
{
    if !wanted {
        return Ok((None, bytes));
    }
    let (number, rest) = u64_at(bytes)?;
    Ok((Some(number), rest))
}

/// The bytes behind the index number, and the hidden number, of a key that is whole by itself.
pub fn key_at<'a>(
    hidden: bool,
    columns: &[ColumnDef],
    places: &[u8],
    key: &'a [u8],
) -> Result<(&'a [u8], Option<u64>), BytesLeft>
    ensures { TakesKey key.now result (key_read hidden columns.now places.now key.now) }
{
    let (_, body) = u32_at(key)?;
    let rest = parts_kept(columns, places, body)?;
    let (number, rest) = wanted_at(hidden, rest)?;
    if rest.len() > 0 {
        return Err(rest.len());
    }
    Ok((body, number))
}

/// The whole value of a column, and what is left of the key and of the unpack data.
fn part_full<'a>(
    column: Option<&ColumnDef>,
    key: &'a [u8],
    unpack: &'a [u8],
) -> Result<(Option<FieldRef<'a>>, &'a [u8], &'a [u8]), BytesLeft>
    ensures { (place : ℕ) → TakesPart (kind_of_column (option_copied column.entry)) place unpack.now result (part_full (option_copied column.entry) place key.now unpack.now) }
{
    match column {
        None => Ok((None, key, unpack)),
        Some(column) => match kept_at(column.ty, key) {
            Err(_) => Err(0),
            Ok((kept, rest)) => {
                let (field, more) = full_at(column.ty.kind, kept, unpack)?;
                Ok((Some(field), rest, more))
            }
        },
    }
}

/// What stands behind the unpack data of a key's columns.
pub fn unpack_at<'a>(
    columns: &[ColumnDef],
    places: &[u8],
    key: &'a [u8],
    unpack: &'a [u8],
) -> Result<&'a [u8], BytesLeft>
    ensures { Skips unpack.now result (behind_of (parts_full columns.now places.now key.now unpack.now)) }
{
    let mut key_left = key;
    let mut left = unpack;
    for place in places {
        match part_full(at(columns, *place as usize), key_left, left) {
            Err(left) => return Err(left),
            Ok((_, key_rest, rest)) => {
                key_left = key_rest;
                left = rest;
            }
        }
    }
    Ok(left)
}

/// Whether this is the field of the column.
fn is_held_at(part: usize, place: usize, field: &Option<FieldRef<'_>>) -> bool
    ensures { result ≡ is_held_at part place field.now }
{
    match field {
        None => false,
        Some(_) => part == place,
    }
}

/// The column at a place, which is among the places of a key that was read before.
pub fn held_field<'a>(
    columns: &[ColumnDef],
    places: &[u8],
    key: &'a [u8],
    unpack: &'a [u8],
    place: usize,
) -> FieldRef<'a>
    ensures { (held : Held) (rest : List ℕ) → parts_full columns.now places.now key.now unpack.now ≡ Ok (held, rest) → field_value (kind_at columns.now place) result ≡ found held place }
{
    let mut key_left = key;
    let mut left = unpack;
    for part in places {
        match part_full(at(columns, *part as usize), key_left, left) {
            Err(_) => return FieldRef::Null,
            Ok((field, key_rest, rest)) => {
                if is_held_at(*part as usize, place, &field) {
                    return field.unwrap_or(FieldRef::Null);
                }
                key_left = key_rest;
                left = rest;
            }
        }
    }
    FieldRef::Null
}
