//! Rows from entries.

ghost use Rattle.std.specs.Prelude.{◌≡◌, ◌+◌, ◌≤◌, ◌++◌, [], ℕ, Option, Ok, length, pos, slice_get, IfOk};
ghost use Rattle.std.specs.Option.{option_copied};
ghost use Rattle.mr_types.specs.FieldValues.{field_value, value_of_bytes};
ghost use Rattle.mr_types.specs.Values.{is_equal};
ghost use Rattle.mr_types.specs.declared.value.Value.TheVariants.{Number as ANumber};
ghost use Rattle.mr_rowval.specs.KeyParts.{Held, parts_full};
ghost use Rattle.mr_rowval.specs.RowValue.{row_read, is_stamp_of};
ghost use Rattle.mr_rowval.specs.Decoded.{held_in};
ghost use Rattle.mr_entry.specs.Entry.{fields_held, covering_read, entry_read};
ghost use Rattle.mr_entry.specs.Answers.{GivesRow, TakesForms};

use crate::places::entry_places;
use mr_base::{Blob, DefAnswer, Malformed, Memory};
use mr_pieces::BytesLeft;
use mr_rowval::{RowRef, held_field, is_hidden, key_at, unpack_at, wanted_at};
use mr_types::{ColumnDef, FieldRef, Kind, Row, TableDef, Value, ValueList};
use mr_unpack::restore;
use sqlite_items::{Items, at};
use std::alloc::Global;

/// Bytes as a value of the kind.
fn value_of_bytes(kind: Kind, bytes: Blob) -> Value
    ensures { result ≡ value_of_bytes kind bytes }
{
    match kind {
        Kind::VarChar(..) => Value::Text(bytes),
        _ => Value::Bytes(bytes),
    }
}

/// A copy of a field.
fn copied(alloc: Global, kind: Kind, field: FieldRef<'_>) -> Result<Value, Memory>
    ensures { IfOk result (λ value. value ≡ field_value kind field.entry) }
{
    match field {
        FieldRef::Null => Ok(Value::Null),
        FieldRef::Number(number) => Ok(Value::Number(number)),
        FieldRef::Slice(slice) => Ok(value_of_bytes(kind, Blob::from_slice(alloc, slice)?)),
        FieldRef::Pieces(pieces) => Ok(value_of_bytes(kind, restore(alloc, pieces)?)),
    }
}

/// All columns of a row.
fn fields_of(alloc: Global, columns: &[ColumnDef], row: &RowRef<'_>) -> Result<ValueList, Memory>
    requires same { columns.now ≡ row.now.def.columns }
    requires size { length row.now.row.fields ≡ length columns.now }
    ensures { IfOk result (λ fields. fields ≡ row.now.row.fields) }
{
    let mut fields = Items::new(alloc);
    for place in 0..columns.len() {
        let value = copied(alloc, columns[place].ty.kind, row.field_at(place))?;
        fields.push(value)?;
    }
    Ok(fields)
}

/// A copy of a row.
fn row_of(alloc: Global, def: &TableDef, row: &RowRef<'_>) -> Result<Row, Memory>
    requires same { row.now.def ≡ def.now }
    requires size { length row.now.row.fields ≡ length def.now.columns }
    ensures { IfOk result (λ copy. copy ≡ row.now.row) }
{
    Ok(Row {
        hidden: row.hidden(),
        stamp: row.stamp(),
        fields: fields_of(alloc, def.columns.as_slice(), row)?,
    })
}

/// The row of a primary entry.
fn primary_row(alloc: Global, def: &TableDef, key: &[u8], value: &[u8]) -> Result<Row, DefAnswer>
    ensures { GivesRow (length key.now + length value.now) result (row_read def.now key.now value.now) }
{
    match RowRef::decode(def, key, value) {
        Err(Malformed(at)) => Err(DefAnswer::Malformed(at)),
        Ok(row) => match row_of(alloc, def, &row) {
            Err(Memory) => Err(DefAnswer::Memory),
            Ok(copy) => Ok(copy),
        },
    }
}

/// The stamp, and the unpack data behind it.
pub(crate) fn forms_at<'a>(
    wanted: bool,
    columns: &[ColumnDef],
    places: &[u8],
    key: &'a [u8],
    value: &'a [u8],
) -> Result<(Option<u64>, &'a [u8]), BytesLeft>
    ensures { TakesForms wanted columns.now places.now key.now value.now result }
{
    let (stamp, unpack) = wanted_at(wanted, value)?;
    let rest = unpack_at(columns, places, key, unpack)?;
    if rest.len() > 0 {
        return Err(rest.len());
    }
    Ok((stamp, unpack))
}

/// All columns, as the key and the unpack data hold them.
fn held_fields(
    alloc: Global,
    columns: &[ColumnDef],
    places: &[u8],
    key: &[u8],
    unpack: &[u8],
) -> Result<ValueList, Memory>
    requires { parts_full columns.now places.now key.now unpack.now ≡ Ok (held_in columns.now places.now key.now unpack.now, []) }
    ensures { IfOk result (λ fields. fields ≡ fields_held (held_in columns.now places.now key.now unpack.now) 0 columns.now) }
{
    let mut fields = Items::new(alloc);
    for place in 0..columns.len() {
        let field = held_field(columns, places, key, unpack, place);
        fields.push(copied(alloc, columns[place].ty.kind, field)?)?;
    }
    Ok(fields)
}

/// Whether a value is the number of a stamp.
fn is_stamp(value: &Value, stamp: u64) -> bool
    ensures { result ≡ is_equal value.now (ANumber (pos stamp)) }
{
    match value {
        Value::Number(number) => !(*number < stamp as i128 || (stamp as i128) < *number),
        Value::Null | Value::Text(_) | Value::Bytes(_) => false,
    }
}

fn value_at(values: &[Value], place: u8) -> Option<&Value>
    ensures { option_copied result ≡ slice_get values.now place }
{
    at(values, place as usize)
}

/// Whether the stamp is the value of the column that the TTL names, if it names one.
fn has_its_stamp(def: &TableDef, row: &Row) -> bool
    ensures { result ≡ is_stamp_of def.now.ttl row.now }
{
    match def.ttl {
        None => true,
        Some(ttl) => match ttl.column {
            None => true,
            Some(place) => match row.stamp {
                None => false,
                Some(stamp) => match value_at(row.fields.as_slice(), place) {
                    None => false,
                    Some(value) => is_stamp(value, stamp),
                },
            },
        },
    }
}

/// The row of an entry of these columns.
fn covering_row(
    alloc: Global,
    def: &TableDef,
    places: &[u8],
    key: &[u8],
    value: &[u8],
) -> Result<Row, DefAnswer>
    ensures { GivesRow (length key.now + length value.now) result (covering_read def.now places.now key.now value.now) }
{
    let columns = def.columns.as_slice();
    let size = key.len() as u64;
    let (body, hidden) = match key_at(is_hidden(def), columns, places, key) {
        Err(left) => return Err(DefAnswer::Malformed(size - left as u64)),
        Ok(front) => front,
    };
    let (stamp, unpack) = match forms_at(def.ttl.is_some(), columns, places, body, value) {
        Err(left) => return Err(DefAnswer::Malformed(size + (value.len() - left) as u64)),
        Ok(forms) => forms,
    };
    let fields = held_fields(alloc, columns, places, body, unpack)?;
    let row = Row {
        hidden,
        stamp,
        fields,
    };
    if has_its_stamp(def, &row) {
        Ok(row)
    } else {
        Err(DefAnswer::Malformed(size))
    }
}

/// The row of an entry of an index that covers all columns; of another index, the columns that its
/// keys don't hold are NULL. A malformed entry is told with its first offending place, where those
/// of the value follow those of the key.
pub fn row_of_entry(
    alloc: Global,
    def: &TableDef,
    index: usize,
    key: &[u8],
    value: &[u8],
) -> Result<Row, DefAnswer>
    ensures { GivesRow (length key.now + length value.now) result (entry_read def.now index key.now value.now) }
{
    if index == 0 {
        return primary_row(alloc, def, key, value);
    }
    let places = entry_places(alloc, def, index)?;
    covering_row(alloc, def, &places, key, value)
}
