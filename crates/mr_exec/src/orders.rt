//! The orders of rows that are held: by ORDER BY, and by the primary key where that ties.

ghost use Rattle.std.specs.Prelude.{◌≡◌, if◌then◌else◌};
ghost use Rattle.std.specs.Ordering.{ordering_reverse};
ghost use Rattle.mr_types.specs.Order.{value_cmp as order_of};
ghost use Rattle.mr_spec.specs.Rows.{kind_at as kind_in, value_at as value_in, columns_cmp as columns_order, primary_cmp as primary_order};
ghost use Rattle.mr_bound.specs.BoundSelects.{order_by as items_order, reply_by as reply_order};

use crate::values::value_cmp;
use mr_bound::BoundOrder;
use mr_types::{Kind, Row, TableDef, Value};
use std::cmp::Ordering;

/// The kind of the column at a place.
pub(crate) fn kind_at(def: &TableDef, at: usize) -> Kind
    ensures { result ≡ kind_in def.now at }
{
    match def.columns.get(at) {
        Some(column) => column.ty.kind,
        None => Kind::Int,
    }
}

/// The order of two rows by the values at a place.
fn value_order(def: &TableDef, at: u8, r: &Row, s: &Row) -> Ordering
    ensures { result ≡ order_of (kind_in def.now at) (value_in r.now at) (value_in s.now at) }
{
    let kind = kind_at(def, at as usize);
    match r.fields.get(at as usize) {
        Some(a) => match s.fields.get(at as usize) {
            Some(b) => value_cmp(kind, a, b),
            None => value_cmp(kind, a, &Value::Null),
        },
        None => match s.fields.get(at as usize) {
            Some(b) => value_cmp(kind, &Value::Null, b),
            None => Ordering::Equal,
        },
    }
}

/// The order of two rows by the values in these columns, one after the other.
fn columns_cmp(def: &TableDef, places: &[u8], r: &Row, s: &Row) -> Ordering
    ensures { result ≡ columns_order def.now places.now r.now s.now }
{
    for place in places {
        let order = value_order(def, *place, r, s);
        if order != Ordering::Equal {
            return order;
        }
    }
    Ordering::Equal
}

/// By the primary key, which is the hidden number where it has no columns.
fn primary_cmp(def: &TableDef, r: &Row, s: &Row) -> Ordering
    ensures { result ≡ primary_order def.now r.now s.now }
{
    let found = columns_cmp(def, def.primary.columns.as_slice(), r, s);
    if found != Ordering::Equal {
        return found;
    }
    r.hidden.unwrap_or(0).cmp(&s.hidden.unwrap_or(0))
}

/// An order, turned round behind DESC.
pub(crate) fn turned(descending: bool, order: Ordering) -> Ordering
    ensures { result ≡ (if descending then ordering_reverse order else order) }
{
    if descending { order.reverse() } else { order }
}

/// By the columns of ORDER BY, one after the other.
fn order_by(def: &TableDef, order: &[BoundOrder], r: &Row, s: &Row) -> Ordering
    ensures { result ≡ items_order def.now order.now r.now s.now }
{
    for item in order {
        let found = turned(item.descending, value_order(def, item.column, r, s));
        if found != Ordering::Equal {
            return found;
        }
    }
    Ordering::Equal
}

/// By ORDER BY, and by the primary key or the hidden number where that ties.
pub(crate) fn reply_by(def: &TableDef, order: &[BoundOrder], r: &Row, s: &Row) -> Ordering
    ensures { result ≡ reply_order def.now order.now r.now s.now }
{
    let found = order_by(def, order, r, s);
    if found != Ordering::Equal {
        return found;
    }
    primary_cmp(def, r, s)
}
