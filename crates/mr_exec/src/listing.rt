//! The columns that SELECT lists of its rows.

ghost use Rattle.std.specs.Prelude.{◌≡◌, map, IfOk};
ghost use Rattle.mr_spec.specs.Rows.{value_at as value_in};
ghost use Rattle.mr_spec.specs.Select.{listed as listed_in};

use mr_base::Memory;
use mr_types::{Row, RowTable, Value, ValueList};
use std::alloc::Global;

/// A copy of the row's value at a place, NULL where there is none.
pub(crate) fn value_at(alloc: Global, row: &Row, at: u8) -> Result<Value, Memory>
    ensures { IfOk result (λ value. value ≡ value_in row.now at) }
{
    match row.fields.get(at as usize) {
        Some(value) => value.copy(alloc),
        None => Ok(Value::Null),
    }
}

/// The row's values at these places.
fn listed(alloc: Global, places: &[u8], row: &Row) -> Result<ValueList, Memory>
    ensures { IfOk result (λ values. values ≡ listed_in places.now row.now) }
{
    let mut values = ValueList::new(alloc);
    for place in places {
        values.push(value_at(alloc, row, *place)?)?;
    }
    Ok(values)
}

/// The values of each row at these places.
pub(crate) fn lines(alloc: Global, places: &[u8], rows: &[Row]) -> Result<RowTable, Memory>
    ensures { IfOk result (λ table. table ≡ map (listed_in places.now) rows.now) }
{
    let mut table = RowTable::new(alloc);
    for row in rows {
        table.push(listed(alloc, places, row)?)?;
    }
    Ok(table)
}
