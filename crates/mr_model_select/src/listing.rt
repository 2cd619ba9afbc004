//! What SELECT lists of its rows: columns, or aggregates.

ghost use Rattle.std.specs.Prelude.{◌≡◌, ◌∷◌, [], map, unwrap_or, pos, length, IfOk};
ghost use Rattle.std.specs.Option.{option_copied};
ghost use Rattle.mr_types.specs.declared.value.Value.TheVariants.{Null};
ghost use Rattle.mr_spec.specs.Rows.{value_at as value_in};
ghost use Rattle.mr_spec.specs.Select.{places as places_in, all_places as all_places_in, listed as listed_in, first_by, values_of, aggregate_of as aggregate_in, shown as shown_in};
ghost use Rattle.mr_model_select.specs.First.{comes_first, first_with, end_in};

use mr_base::{Blob, Memory};
use mr_model_rows::{kind_at, place_of, value_cmp};
use mr_types::{Aggregate, Columns, Kind, Row, RowTable, TableDef, Value, ValueList};
use std::alloc::{AllocError, Global};

/// The places of all columns.
fn all_places(alloc: Global, def: &TableDef) -> Result<Vec<usize>, Memory>
    ensures { IfOk result (λ places. places.items ≡ all_places_in def.now) }
{
    let mut places = Vec::new(alloc);
    for (i, _column) in def.columns.as_slice().iter().enumerate() {
        match places.push(i) {
            Ok(()) => {}
            Err(_) => return Err(Memory),
        }
    }
    Ok(places)
}

/// The places of the columns with these names, which are there.
fn places_of(alloc: Global, def: &TableDef, names: &[Blob]) -> Result<Vec<usize>, Memory>
    ensures { IfOk result (λ places. places.items ≡ places_in def.now names.now) }
{
    let mut places = Vec::new(alloc);
    for name in names {
        match places.push(place_of(def, name.as_slice()).unwrap_or(0)) {
            Ok(()) => {}
            Err(_) => return Err(Memory),
        }
    }
    Ok(places)
}

fn value_at(alloc: Global, row: &Row, at: usize) -> Result<Value, Memory>
    ensures { IfOk result (λ value. value ≡ value_in row.now at) }
{
    match row.fields.get(at) {
        Some(value) => value.copy(alloc),
        None => Ok(Value::Null),
    }
}

/// The row's values at these places.
fn listed(alloc: Global, places: &[usize], row: &Row) -> Result<ValueList, Memory>
    ensures { IfOk result (λ values. values ≡ listed_in places.now row.now) }
{
    let mut values = ValueList::new(alloc);
    for place in places {
        values.push(value_at(alloc, row, *place)?)?;
    }
    Ok(values)
}

/// The values of each row at these places.
fn lines(alloc: Global, places: &[usize], rows: &[Row]) -> Result<RowTable, Memory>
    ensures { IfOk result (λ table. table ≡ map (listed_in places.now) rows.now) }
{
    let mut table = RowTable::new(alloc);
    for row in rows {
        table.push(listed(alloc, places, row)?)?;
    }
    Ok(table)
}

/// Which value MIN or MAX is after.
#[derive(Clone, Copy, Drop)]
enum End {
    Least,
    Greatest,
}

/// Whether a value comes before another for this aggregate.
fn is_before(end: End, kind: Kind, a: &Value, b: &Value) -> bool
    ensures { result ≡ comes_first end kind a.now b.now }
{
    let order = value_cmp(kind, a, b);
    match end {
        End::Least => order.is_lt(),
        End::Greatest => order.is_gt(),
    }
}

/// The first of two values for this aggregate, where there is a first one already.
fn first_of<'a>(end: End, kind: Kind, best: Option<&'a Value>, value: &'a Value) -> &'a Value
    ensures { result.now ≡ first_with (comes_first end kind) (option_copied best.entry) (value.now ∷ []) }
{
    match best {
        None => value,
        Some(best) => {
            if is_before(end, kind, value, best) {
                value
            } else {
                best
            }
        }
    }
}

/// The first of a column's values that aren't NULL; None where there is none.
fn first_in<'a>(end: End, kind: Kind, at: usize, rows: &'a [Row]) -> Option<&'a Value>
    ensures { unwrap_or (option_copied result) Null ≡ first_by (comes_first end kind) (values_of at rows.now) }
{
    let mut best = None;
    for row in rows {
        match row.fields.get(at) {
            None | Some(Value::Null) => {}
            Some(value) => best = Some(first_of(end, kind, best, value)),
        }
    }
    best
}

/// The least or greatest value of the column of this name, NULL where there is none.
fn end_of(
    alloc: Global,
    def: &TableDef,
    end: End,
    name: &Blob,
    rows: &[Row],
) -> Result<Value, Memory>
    ensures { IfOk result (λ value. value ≡ end_in def.now end name.now rows.now) }
{
    let at = place_of(def, name.as_slice()).unwrap_or(0);
    match first_in(end, kind_at(def, at), at, rows) {
        Some(value) => value.copy(alloc),
        None => Ok(Value::Null),
    }
}

fn aggregate_of(
    alloc: Global,
    def: &TableDef,
    rows: &[Row],
    aggregate: &Aggregate,
) -> Result<Value, Memory>
    ensures { IfOk result (λ value. value ≡ aggregate_in def.now rows.now aggregate.now) }
{
    match aggregate {
        Aggregate::Count => Ok(Value::Number(rows.len() as i128)),
        Aggregate::Min(name) => end_of(alloc, def, End::Least, name, rows),
        Aggregate::Max(name) => end_of(alloc, def, End::Greatest, name, rows),
    }
}

/// One row of these aggregates.
fn aggregated(
    alloc: Global,
    def: &TableDef,
    rows: &[Row],
    aggregates: &[Aggregate],
) -> Result<ValueList, Memory>
    ensures { IfOk result (λ values. values ≡ map (aggregate_in def.now rows.now) aggregates.now) }
{
    let mut values = ValueList::new(alloc);
    for aggregate in aggregates {
        values.push(aggregate_of(alloc, def, rows, aggregate)?)?;
    }
    Ok(values)
}

/// The listed columns of the rows within LIMIT, or one row of aggregates over all that were kept.
pub fn shown(
    alloc: Global,
    def: &TableDef,
    columns: &Columns,
    kept: &[Row],
    limited: &[Row],
) -> Result<RowTable, Memory>
    ensures { IfOk result (λ table. table ≡ shown_in def.now columns.now kept.now limited.now) }
{
    match columns {
        Columns::All => {
            let places = all_places(alloc, def)?;
            lines(alloc, places.as_slice(), limited)
        }
        Columns::Names(names) => {
            let places = places_of(alloc, def, names.as_slice())?;
            lines(alloc, places.as_slice(), limited)
        }
        Columns::Aggregates(aggregates) => {
            let mut table = RowTable::new(alloc);
            table.push(aggregated(alloc, def, kept, aggregates.as_slice())?)?;
            Ok(table)
        }
    }
}
