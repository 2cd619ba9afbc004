//! SELECT, bound to a table.

ghost use Rattle.std.specs.Prelude.{◌≡◌, ◌≤◌, ◌<◌, length, map, IfOk};
ghost use Rattle.std.specs.List.{list_any};
ghost use Rattle.mr_types.specs.Values.{Answers};
ghost use Rattle.mr_spec.specs.Binding.{place_or_first as place_in};
ghost use Rattle.mr_spec.specs.Truth.{is_unknown as unknown_in};
ghost use Rattle.mr_spec.specs.Select.{places as places_in, all_places as all_places_in, aggregate_names, has_unknown as names_unknown};
ghost use Rattle.mr_bound.specs.BoundSelects.{aggregate_at as aggregate_in, columns_at as columns_in, order_at as order_in, bind_select as bind_in};

use crate::bound::{
    BoundAggregate, BoundAggregateList, BoundColumns, BoundOrder, BoundOrderList, BoundSelect,
};
use crate::condition::{converted_condition, known_condition};
use mr_base::{Blob, Memory};
use mr_bind::{is_unknown, place_of};
use mr_types::{Aggregate, Columns, OrderItem, Refused, Select, TableDef};
use std::alloc::Global;

// ---- columns that aren't there

fn some_unknown(def: &TableDef, names: &[Blob]) -> bool
    ensures { result ≡ list_any (unknown_in def.now) names.now }
{
    names.iter().any(|name| is_unknown(def, name.as_slice()))
}

fn aggregate_unknown(def: &TableDef, aggregate: &Aggregate) -> bool
    ensures { result ≡ list_any (unknown_in def.now) (aggregate_names aggregate.now) }
{
    match aggregate {
        Aggregate::Count => false,
        Aggregate::Min(name) | Aggregate::Max(name) => is_unknown(def, name.as_slice()),
    }
}

fn some_aggregates_unknown(def: &TableDef, aggregates: &[Aggregate]) -> bool
    ensures { result ≡ list_any (λ a. list_any (unknown_in def.now) (aggregate_names a)) aggregates.now }
{
    aggregates
        .iter()
        .any(|aggregate| aggregate_unknown(def, aggregate))
}

/// Whether the list names a column that isn't there.
fn has_unknown(def: &TableDef, columns: &Columns) -> bool
    ensures { result ≡ names_unknown def.now columns.now }
{
    match columns {
        Columns::All => false,
        Columns::Names(names) => some_unknown(def, names.as_slice()),
        Columns::Aggregates(aggregates) => some_aggregates_unknown(def, aggregates.as_slice()),
    }
}

/// Whether ORDER BY names a column that isn't there.
fn orders_by_unknown(def: &TableDef, order: &[OrderItem]) -> bool
    ensures { result ≡ list_any (λ o. unknown_in def.now o.column) order.now }
{
    order
        .iter()
        .any(|item| is_unknown(def, item.column.as_slice()))
}

// ---- places

/// The place of a column that is there.
pub(crate) fn place_or_first(def: &TableDef, name: &[u8]) -> u8
    requires few { length def.now.columns ≤ 255 }
    ensures { result ≡ place_in def.now name.now }
{
    match place_of(def, name) {
        Some(place) => place as u8,
        None => 0,
    }
}

/// The places of all columns.
fn all_places(alloc: Global, def: &TableDef) -> Result<Blob, Memory>
    requires few { length def.now.columns ≤ 255 }
    ensures { IfOk result (λ places. places ≡ all_places_in def.now) }
{
    let mut places = Vec::new(alloc);
    for (i, _column) in def.columns.as_slice().iter().enumerate() {
        match places.push(i as u8) {
            Ok(()) => {}
            Err(_) => return Err(Memory),
        }
    }
    Ok(Blob::from_vec(places))
}

/// The places of the columns with these names, which are there.
fn places_of(alloc: Global, def: &TableDef, names: &[Blob]) -> Result<Blob, Memory>
    requires few { length def.now.columns ≤ 255 }
    ensures { IfOk result (λ places. places ≡ places_in def.now names.now) }
{
    let mut places = Vec::new(alloc);
    for name in names {
        match places.push(place_or_first(def, name.as_slice())) {
            Ok(()) => {}
            Err(_) => return Err(Memory),
        }
    }
    Ok(Blob::from_vec(places))
}

fn aggregate_at(def: &TableDef, aggregate: &Aggregate) -> BoundAggregate
    requires few { length def.now.columns ≤ 255 }
    ensures { result ≡ aggregate_in def.now aggregate.now }
{
    match aggregate {
        Aggregate::Count => BoundAggregate::Count,
        Aggregate::Min(name) => BoundAggregate::Min(place_or_first(def, name.as_slice())),
        Aggregate::Max(name) => BoundAggregate::Max(place_or_first(def, name.as_slice())),
    }
}

fn aggregates_at(
    alloc: Global,
    def: &TableDef,
    aggregates: &[Aggregate],
) -> Result<BoundAggregateList, Memory>
    requires few { length def.now.columns ≤ 255 }
    ensures { IfOk result (λ bound. bound ≡ map (aggregate_in def.now) aggregates.now) }
{
    let mut bound = BoundAggregateList::new(alloc);
    for aggregate in aggregates {
        bound.push(aggregate_at(def, aggregate))?;
    }
    Ok(bound)
}

fn columns_at(alloc: Global, def: &TableDef, columns: &Columns) -> Result<BoundColumns, Memory>
    requires few { length def.now.columns ≤ 255 }
    ensures { IfOk result (λ bound. bound ≡ columns_in def.now columns.now) }
{
    match columns {
        Columns::All => Ok(BoundColumns::Places(all_places(alloc, def)?)),
        Columns::Names(names) => Ok(BoundColumns::Places(places_of(alloc, def, names.as_slice())?)),
        Columns::Aggregates(aggregates) => Ok(BoundColumns::Aggregates(aggregates_at(
            alloc,
            def,
            aggregates.as_slice(),
        )?)),
    }
}

fn order_at(alloc: Global, def: &TableDef, order: &[OrderItem]) -> Result<BoundOrderList, Memory>
    requires few { length def.now.columns ≤ 255 }
    ensures { IfOk result (λ bound. bound ≡ map (order_in def.now) order.now) }
{
    let mut bound = BoundOrderList::new(alloc);
    for item in order {
        bound.push(BoundOrder {
            column: place_or_first(def, item.column.as_slice()),
            descending: item.descending,
        })?;
    }
    Ok(bound)
}

/// The SELECT with places in the place of names and each literal in its column's kind: 1054 exactly
/// where the list, WHERE or ORDER BY names a column that isn't in the table, else 1366 exactly where
/// a literal isn't converted.
pub fn bind_select(alloc: Global, def: &TableDef, select: &Select) -> Result<BoundSelect, Refused>
    requires few { length def.now.columns ≤ 255 }
    ensures { Answers result (bind_in def.now select.now) }
{
    if has_unknown(def, &select.columns) {
        return Err(Refused::Sql(1054));
    }
    known_condition(def, &select.condition)?;
    if orders_by_unknown(def, select.order.as_slice()) {
        return Err(Refused::Sql(1054));
    }
    let condition = converted_condition(alloc, def, &select.condition)?;
    Ok(BoundSelect {
        columns: columns_at(alloc, def, &select.columns)?,
        condition,
        order: order_at(alloc, def, select.order.as_slice())?,
        skip: select.skip,
        most: select.most,
    })
}
