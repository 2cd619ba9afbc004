//! COUNT, MIN and MAX, from one row to the next.

ghost use Rattle.std.specs.Prelude.{◌≡◌, if◌then◌else◌, Some, IsSome, IfSome, IfOk, OnOk, map};
ghost use Rattle.mr_exec.specs.Gathering.{found_none, first_with, found_with, value_found};

use crate::lent::{is_null_at, reply_by};
use crate::listing::value_at;
use crate::source::RowSource;
use mr_base::Memory;
use mr_bound::{BoundAggregate, BoundOrder};
use mr_types::{Row, TableDef, Value, ValueList};
use std::alloc::Global;

/// What an aggregate has found in the rows so far.
#[derive(Drop)]
pub(crate) enum Found {
    /// How many rows there are.
    Count(i128),
    /// Of the rows whose value isn't NULL the first one by this order, and by the primary key where
    /// that ties.
    First(BoundOrder, Option<Row>),
}

fn nothing_found(aggregate: BoundAggregate) -> Found
    ensures { result ≡ found_none aggregate }
{
    match aggregate {
        BoundAggregate::Count => Found::Count(0),
        BoundAggregate::Min(column) => {
            let order = BoundOrder {
                column,
                descending: false,
            };
            Found::First(order, None)
        }
        BoundAggregate::Max(column) => {
            let order = BoundOrder {
                column,
                descending: true,
            };
            Found::First(order, None)
        }
    }
}

/// What the aggregates have found before there is a row.
pub(crate) fn none_found(alloc: Global, aggregates: &[BoundAggregate]) -> Result<Vec<Found>, Memory>
    ensures { IfOk result (λ all. all.items ≡ map found_none aggregates.now) }
{
    let mut all = Vec::new(alloc);
    for aggregate in aggregates {
        match all.push(nothing_found(*aggregate)) {
            Ok(()) => {}
            Err(_) => return Err(Memory),
        }
    }
    Ok(all)
}

/// Whether the row takes the place of the first one so far.
fn is_first<S: RowSource>(source: &S, def: &TableDef, order: BoundOrder, best: &Option<Row>) -> bool
    requires some { IsSome (S.current source.now) }
    requires of { def.now ≡ S.def source.now }
    ensures { IfSome (S.current source.now) (λ r. first_with def.now order best.now r ≡ (if result then Some r else best.now)) }
{
    if is_null_at::<S>(source, order.column) {
        return false;
    }
    match best {
        None => true,
        Some(best) => reply_by::<S>(source, def, &[order], best).is_lt(),
    }
}

/// Adds the row that the source stands on to what an aggregate has found. The row is copied only
/// where it is the first one so far.
fn find<S: RowSource>(
    alloc: Global,
    source: &S,
    def: &TableDef,
    found: &mut Found,
) -> Result<(), Memory>
    requires some { IsSome (S.current source.now) }
    requires of { def.now ≡ S.def source.now }
    ensures { IfSome (S.current source.now) (λ r. OnOk result (found.new ≡ found_with def.now found.old r)) }
{
    match found {
        Found::Count(count) => match count.checked_add(1) {
            Some(more) => *count = more,
            None => return Err(Memory),
        },
        Found::First(order, best) => {
            if is_first::<S>(source, def, *order, best) {
                *best = Some(source.row(alloc)?);
            }
        }
    }
    Ok(())
}

/// Adds the row that the source stands on to what each of the aggregates has found.
pub(crate) fn find_each<S: RowSource>(
    alloc: Global,
    source: &S,
    def: &TableDef,
    all: &mut Vec<Found>,
) -> Result<(), Memory>
    requires some { IsSome (S.current source.now) }
    requires of { def.now ≡ S.def source.now }
    ensures { IfSome (S.current source.now) (λ r. OnOk result (all.new.items ≡ map (λ f. found_with def.now f r) all.old.items)) }
{
    for found in all.iter_mut() {
        find::<S>(alloc, source, def, found)?;
    }
    Ok(())
}

fn value_of(alloc: Global, found: &Found) -> Result<Value, Memory>
    ensures { IfOk result (λ value. value ≡ value_found found.now) }
{
    match found {
        Found::Count(count) => Ok(Value::Number(*count)),
        Found::First(_, None) => Ok(Value::Null),
        Found::First(order, Some(row)) => value_at(alloc, row, order.column),
    }
}

/// The values of what the aggregates have found.
pub(crate) fn values_of(alloc: Global, all: &[Found]) -> Result<ValueList, Memory>
    ensures { IfOk result (λ values. values ≡ map value_found all.now) }
{
    let mut values = ValueList::new(alloc);
    for found in all {
        values.push(value_of(alloc, found)?)?;
    }
    Ok(values)
}
