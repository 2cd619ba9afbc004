//! What an UPDATE makes of a row.

ghost use Rattle.std.specs.Prelude.{◌≡◌, slice_set};
ghost use Rattle.mr_types.specs.Refusals.{in_turn};
ghost use Rattle.mr_types.specs.Values.{Answers};
ghost use Rattle.mr_spec.specs.Setting.{same_fields as has_same_fields};
ghost use Rattle.mr_bound.specs.BoundUpdates.{with_set as and_set, updated as updated_in};
ghost use Rattle.mr_bound.specs.Stamps.{row_within, updated_within, HasStamp};

use crate::bound::{BoundSet, BoundUpdate};
use crate::stamp::stamp_for;
use crate::sums::sum_of;
use mr_types::{Refused, Row, TableDef, Value, ValueList, assign, copy_values};
use std::alloc::Global;

/// The fields with one at a place, where there is that place.
fn with_field(mut fields: ValueList, place: usize, value: Value) -> ValueList
    ensures { result ≡ slice_set fields place value }
{
    if place < fields.len() {
        fields.set(place, value);
    }
    fields
}

/// The fields with one more assignment, which sees those before it.
fn with_set(
    alloc: Global,
    def: &TableDef,
    fields: ValueList,
    set: &BoundSet,
) -> Result<ValueList, Refused>
    ensures { Answers result (and_set def.now fields set.now) }
{
    let place = set.column as usize;
    let Some(column) = def.columns.get(place) else {
        return Err(Refused::Sql(1054));
    };
    let value = sum_of(alloc, fields.as_slice(), set.to.as_slice())?;
    let assigned = assign(alloc, &value, &column.ty)?;
    Ok(with_field(fields, place, assigned))
}

/// The fields of a row after these assignments.
fn fields_set(
    alloc: Global,
    def: &TableDef,
    old: &ValueList,
    set: &[BoundSet],
) -> Result<ValueList, Refused>
    ensures { Answers result (in_turn (and_set def.now) old.now set.now) }
{
    let mut fields = copy_values(alloc, old)?;
    for item in set {
        fields = with_set(alloc, def, fields, item)?;
    }
    Ok(fields)
}

/// Whether the fields are the same, byte for byte.
fn same_fields(old: &[Value], new: &[Value]) -> bool
    ensures { result ≡ has_same_fields old.now new.now }
{
    for (i, value) in old.iter().enumerate() {
        match new.get(i) {
            Some(other) => {
                if !value.is_equal(other) {
                    return false;
                }
            }
            None => return true,
        }
    }
    true
}

/// The old row with new fields; without a TTL column it keeps its stamp.
fn updated_row(def: &TableDef, old: &Row, fields: ValueList) -> Row
    ensures { result ≡ row_within def.now old.now fields }
{
    let stamp = stamp_for(def.ttl, old.stamp.unwrap_or(0), fields.as_slice());
    Row {
        hidden: old.hidden,
        stamp,
        fields,
    }
}

/// The row after all assignments, None where each field stays.
fn row_after(
    alloc: Global,
    def: &TableDef,
    row: &Row,
    update: &BoundUpdate,
) -> Result<Option<Row>, Refused>
    ensures { Answers result (updated_within def.now row.now update.now) }
{
    let fields = fields_set(alloc, def, &row.fields, update.set.as_slice())?;
    if same_fields(row.fields.as_slice(), fields.as_slice()) {
        return Ok(None);
    }
    Ok(Some(updated_row(def, row, fields)))
}

/// The row after all assignments from left to right, each of which sees those before it; None
/// exactly where each field stays byte for byte. 1690 where a product or a sum leaves -2^63 to
/// 2^64 - 1, or what an assignment refuses, whichever comes first. A row of a table has a number of
/// at most 64 bits in its TTL column; where another has more, the stamp is the greatest.
pub fn updated(
    alloc: Global,
    def: &TableDef,
    row: &Row,
    update: &BoundUpdate,
) -> Result<Option<Row>, Refused>
    ensures is { HasStamp def.now row.now → Answers result (updated_in def.now row.now update.now) }
    ensures of_any_row { Answers result (updated_within def.now row.now update.now) }
{
    row_after(alloc, def, row, update)
}
