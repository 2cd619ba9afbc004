//! SET of an UPDATE: assignments, and the refusals before the first row.

ghost use Rattle.std.specs.Prelude.{◌≡◌, IfOk, slice_set};
ghost use Rattle.mr_types.specs.Values.{Answers, is_equal as has_equal};
ghost use Rattle.mr_spec.specs.Truth.{where_of};
ghost use Rattle.mr_spec.specs.Setting.{set_value as value_set, with_item as and_item, same_fields as has_same_fields, updated_row as row_updated, update_tests as tests_of};

use crate::new_rows::stamp_for;
use crate::set_checks::{has_missing_default, has_unknown_column, has_wrong_sum};
use crate::sums::sum_of;
use crate::tuples::default_of;
use mr_base::Memory;
use mr_model_rows::{known_columns, place_of, right_literals};
use mr_types::{ColumnDef, Expr, Refused, Row, SetItem, SetTo, TableDef, Value, ValueList, assign};
use std::alloc::Global;

/// What a column is set to: its default, or the sum.
fn set_value(
    alloc: Global,
    def: &TableDef,
    column: &ColumnDef,
    fields: &[Value],
    to: &SetTo,
) -> Result<Value, Refused>
    ensures { Answers result (value_set def.now column.now fields.now to.now) }
{
    match to {
        SetTo::Default => Ok(default_of(alloc, column)?),
        SetTo::Sum(terms) => sum_of(alloc, def, fields, terms.as_slice()),
    }
}

/// The fields with one at a place, where there is that place.
fn with_field(mut fields: ValueList, place: usize, value: Value) -> ValueList
    ensures { result ≡ slice_set fields place value }
{
    if place < fields.len() {
        fields.set(place, value);
    }
    fields
}

/// The fields with one more assignment, which sees those before it.
pub(crate) fn with_item(
    alloc: Global,
    def: &TableDef,
    fields: ValueList,
    item: &SetItem,
) -> Result<ValueList, Refused>
    ensures { Answers result (and_item def.now fields item.now) }
{
    let Some(place) = place_of(def, item.column.as_slice()) else {
        return Err(Refused::Sql(1054));
    };
    let Some(column) = def.columns.get(place) else {
        return Err(Refused::Sql(1054));
    };
    let value = set_value(alloc, def, column, fields.as_slice(), &item.to)?;
    let assigned = assign(alloc, &value, &column.ty)?;
    Ok(with_field(fields, place, assigned))
}

/// Whether two values are the same, byte for byte.
fn is_equal(a: &Value, b: &Value) -> bool
    ensures { result ≡ has_equal a.now b.now }
{
    match (a, b) {
        (Value::Null, Value::Null) => true,
        (Value::Number(m), Value::Number(n)) => !(m < n || n < m),
        (Value::Text(s), Value::Text(t)) => s.is_same(t),
        (Value::Bytes(s), Value::Bytes(t)) => s.is_same(t),
        _ => false,
    }
}

/// Whether the fields are the same, byte for byte.
pub(crate) fn same_fields(old: &[Value], new: &[Value]) -> bool
    ensures { result ≡ has_same_fields old.now new.now }
{
    for (i, value) in old.iter().enumerate() {
        match new.get(i) {
            Some(other) => {
                if !is_equal(value, other) {
                    return false;
                }
            }
            None => return true,
        }
    }
    true
}

/// The old row with new fields; without a TTL column it keeps its stamp.
pub(crate) fn updated_row(def: &TableDef, old: &Row, fields: ValueList) -> Result<Row, Memory>
    ensures { IfOk result (λ row. row ≡ row_updated def.now old.now fields) }
{
    let stamp = stamp_for(def.ttl, old.stamp.unwrap_or(0), fields.as_slice())?;
    Ok(Row {
        hidden: old.hidden,
        stamp,
        fields,
    })
}

/// The refusals before the first row: 1054 for SET and WHERE, 1366 for arithmetic on texts and for
/// a literal in WHERE, 1364 for DEFAULT where there is none.
pub(crate) fn update_tests(
    alloc: Global,
    def: &TableDef,
    set: &[SetItem],
    condition: &Option<Expr>,
) -> Result<(), Refused>
    ensures { Answers result (tests_of def.now set.now (where_of condition.now)) }
{
    if has_unknown_column(def, set) {
        return Err(Refused::Sql(1054));
    }
    known_columns(def, condition)?;
    if has_wrong_sum(def, set) {
        return Err(Refused::Sql(1366));
    }
    right_literals(alloc, def, condition)?;
    if has_missing_default(def, set) {
        return Err(Refused::Sql(1364));
    }
    Ok(())
}
