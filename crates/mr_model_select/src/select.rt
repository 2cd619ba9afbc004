//! SELECT: its refusals, and what it gives.

ghost use Rattle.std.specs.Prelude.{◌≡◌, false, filter, take, drop, map, IfOk};
ghost use Rattle.std.specs.List.{list_any};
ghost use Rattle.std.specs.Option.{option_map_or};
ghost use Rattle.mr_types.specs.Values.{Answers};
ghost use Rattle.mr_spec.specs.KeyChecks.{is_named};
ghost use Rattle.mr_spec.specs.Truth.{where_of, is_unknown as unknown_in};
ghost use Rattle.mr_spec.specs.Select.{select_tests as tests_of, selected as selected_in, is_missing_key as misses, aggregate_names, has_unknown as names_unknown};

use crate::listing::shown;
use crate::sorting::{limited, sorted};
use mr_base::{Blob, Memory};
use mr_model_rows::{is_unknown, kept_by, known_columns, right_literals};
use mr_schema::is_same_name;
use mr_types::{
    Aggregate, Columns, IndexDef, IndexName, OrderItem, Refused, Row, RowTable, Select, TableDef,
};
use std::alloc::Global;

fn has_key(keys: &[IndexDef], name: &[u8]) -> bool
    ensures { result ≡ list_any (is_named name.now) keys.now }
{
    keys.iter()
        .any(|key| is_same_name(key.name.as_slice(), name))
}

/// Whether the table has no key of the name behind FORCE INDEX.
fn is_missing_key(def: &TableDef, forced: &Option<IndexName>) -> bool
    ensures { result ≡ option_map_or (misses def.now) forced.now false }
{
    match forced {
        None => false,
        Some(IndexName::Primary) => def.primary.columns.is_empty(),
        Some(IndexName::Name(name)) => !has_key(def.secondary.as_slice(), name.as_slice()),
    }
}

fn some_unknown(def: &TableDef, names: &[Blob]) -> bool
    ensures { result ≡ list_any (unknown_in def.now) names.now }
{
    names.iter().any(|name| is_unknown(def, name.as_slice()))
}

fn aggregates_unknown(def: &TableDef, aggregate: &Aggregate) -> bool
    ensures { result ≡ list_any (unknown_in def.now) (aggregate_names aggregate.now) }
{
    match aggregate {
        Aggregate::Count => false,
        Aggregate::Min(name) | Aggregate::Max(name) => is_unknown(def, name.as_slice()),
    }
}

fn some_aggregates_unknown(def: &TableDef, aggregates: &[Aggregate]) -> bool
    ensures { result ≡ list_any (λ a. list_any (unknown_in def.now) (aggregate_names a)) aggregates.now }
{
    aggregates
        .iter()
        .any(|aggregate| aggregates_unknown(def, aggregate))
}

/// Whether the list names a column that isn't there.
fn has_unknown(def: &TableDef, columns: &Columns) -> bool
    ensures { result ≡ names_unknown def.now columns.now }
{
    match columns {
        Columns::All => false,
        Columns::Names(names) => some_unknown(def, names.as_slice()),
        Columns::Aggregates(aggregates) => some_aggregates_unknown(def, aggregates.as_slice()),
    }
}

/// Whether ORDER BY names a column that isn't there.
fn orders_by_unknown(def: &TableDef, order: &[OrderItem]) -> bool
    ensures { result ≡ list_any (λ o. unknown_in def.now o.column) order.now }
{
    order
        .iter()
        .any(|item| is_unknown(def, item.column.as_slice()))
}

/// The first refusal: 1176 for FORCE INDEX; 1054 for the list, WHERE and ORDER BY; 1366 for a
/// literal in WHERE.
pub fn select_tests(alloc: Global, def: &TableDef, select: &Select) -> Result<(), Refused>
    ensures { Answers result (tests_of def.now select.now (where_of select.now.condition)) }
{
    if is_missing_key(def, &select.forced) {
        return Err(Refused::Sql(1176));
    }
    if has_unknown(def, &select.columns) {
        return Err(Refused::Sql(1054));
    }
    known_columns(def, &select.condition)?;
    if orders_by_unknown(def, select.order.as_slice()) {
        return Err(Refused::Sql(1054));
    }
    right_literals(alloc, def, &select.condition)
}

/// What SELECT gives of the visible rows, which come in primary-key order.
pub fn selected(
    alloc: Global,
    def: &TableDef,
    select: &Select,
    rows: &[Row],
) -> Result<RowTable, Memory>
    ensures { IfOk result (λ table. table ≡ selected_in def.now select.now (where_of select.now.condition) rows.now) }
{
    let kept = kept_by(alloc, def, &select.condition, rows)?;
    let rows = sorted(alloc, def, select.order.as_slice(), kept.as_slice())?;
    let rows = limited(select.skip, select.most, rows.as_slice());
    let table = shown(alloc, def, &select.columns, kept.as_slice(), rows)?;
    Ok(table)
}
