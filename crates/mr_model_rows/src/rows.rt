//! Rows of a table.

ghost use Rattle.std.specs.Prelude.{◌≡◌, IfOk};
ghost use Rattle.std.specs.List.{list_any};
ghost use Rattle.mr_types.specs.Order.{value_cmp as order_of};
ghost use Rattle.mr_types.specs.Values.{is_null as null_test};
ghost use Rattle.mr_orders.specs.Orders.{IsAscending};
ghost use Rattle.mr_spec.specs.Rows.{place_of as place_in, kind_at as kind_in, value_at as value_in, columns_cmp as columns_order, primary_cmp as primary_order, same_primary as has_primary, has_null as null_in, same_unique as has_unique, clashes as clash, is_visible as is_seen, visible as seen, without as left_without, put as put_in, rows_after as rows_behind};

use crate::copies::insert_at;
use crate::finding::search;
use crate::values::value_cmp;
use mr_base::Memory;
use mr_schema::place_in as place_among;
use mr_spec::RowList;
use mr_types::{Change, IndexDef, Kind, Row, TableDef, Value, is_expired};
use std::alloc::Global;
use std::cmp::Ordering;

/// The place of a table's column, None where it has none of this name.
pub fn place_of(def: &TableDef, name: &[u8]) -> Option<usize>
    ensures { result ≡ place_in def.now name.now }
{
    place_among(def.columns.as_slice(), name)
}

/// The kind of the column at a place.
pub fn kind_at(def: &TableDef, at: usize) -> Kind
    ensures { result ≡ kind_in def.now at }
{
    match def.columns.get(at) {
        Some(column) => column.ty.kind,
        None => Kind::Int,
    }
}

/// The order of two rows by the values at a place.
pub fn value_order(def: &TableDef, at: usize, r: &Row, s: &Row) -> Ordering
    ensures { result ≡ order_of (kind_in def.now at) (value_in r.now at) (value_in s.now at) }
{
    let kind = kind_at(def, at);
    match r.fields.get(at) {
        Some(a) => match s.fields.get(at) {
            Some(b) => value_cmp(kind, a, b),
            None => value_cmp(kind, a, &Value::Null),
        },
        None => match s.fields.get(at) {
            Some(b) => value_cmp(kind, &Value::Null, b),
            None => Ordering::Equal,
        },
    }
}

/// The order of two rows by the values in these columns, one after the other.
pub fn columns_cmp(def: &TableDef, places: &[u8], r: &Row, s: &Row) -> Ordering
    ensures { result ≡ columns_order def.now places.now r.now s.now }
{
    for place in places {
        let order = value_order(def, *place as usize, r, s);
        if order != Ordering::Equal {
            return order;
        }
    }
    Ordering::Equal
}

/// By the primary key, which is the hidden number where it has no columns.
pub fn primary_cmp(def: &TableDef, r: &Row, s: &Row) -> Ordering
    ensures { result ≡ primary_order def.now r.now s.now }
{
    columns_cmp(def, def.primary.columns.as_slice(), r, s).then(
        r.hidden.unwrap_or(0).cmp(&s.hidden.unwrap_or(0)),
    )
}

/// Whether they have the same primary key.
pub fn same_primary(def: &TableDef, r: &Row, s: &Row) -> bool
    ensures { result ≡ has_primary def.now r.now s.now }
{
    primary_cmp(def, r, s) == Ordering::Equal
}

fn is_null_at(row: &Row, at: usize) -> bool
    ensures { result ≡ null_test (value_in row.now at) }
{
    match row.fields.get(at) {
        Some(Value::Null) => true,
        Some(_) => false,
        None => true,
    }
}

/// Whether NULL stands in one of these columns.
fn has_null(row: &Row, places: &[u8]) -> bool
    ensures { result ≡ null_in row.now places.now }
{
    places.iter().any(|place| is_null_at(row, *place as usize))
}

/// Whether they have the same values, without NULL, in a unique key.
pub fn same_unique(def: &TableDef, r: &Row, s: &Row, key: &IndexDef) -> bool
    ensures { result ≡ has_unique def.now r.now s.now key.now }
{
    let places = key.columns.as_slice();
    key.unique && !has_null(r, places) && columns_cmp(def, places, r, s) == Ordering::Equal
}

fn same_in_some(def: &TableDef, keys: &[IndexDef], r: &Row, s: &Row) -> bool
    ensures { result ≡ list_any (has_unique def.now r.now s.now) keys.now }
{
    keys.iter().any(|key| same_unique(def, r, s, key))
}

/// Whether they have the same values in the primary key or, without NULL, in a unique key.
pub fn clashes(def: &TableDef, r: &Row, s: &Row) -> bool
    ensures { result ≡ clash def.now r.now s.now }
{
    same_primary(def, r, s) || same_in_some(def, def.secondary.as_slice(), r, s)
}

/// Whether statements see the row at a moment.
pub fn is_visible(def: &TableDef, moment: u64, row: &Row) -> bool
    ensures { result ≡ is_seen def.now moment row.now }
{
    match (def.ttl, row.stamp) {
        (Some(ttl), Some(stamp)) => !is_expired(stamp, ttl.duration, moment),
        _ => true,
    }
}

/// The rows that statements see at a moment.
pub fn visible(alloc: Global, def: &TableDef, moment: u64, rows: &[Row]) -> Result<RowList, Memory>
    ensures { IfOk result (λ kept. kept ≡ seen def.now moment rows.now) }
{
    let mut kept = RowList::new(alloc);
    for row in rows {
        if is_visible(def, moment, row) {
            kept.push(row.copy(alloc)?)?;
        }
    }
    Ok(kept)
}

/// The rows without any that has the key of this one.
#[tactic(auto, using(crate::proofs::Searching::without_found, crate::proofs::Searching::without_absent))]
pub fn without(def: &TableDef, gone: &Row, rows: RowList) -> RowList
    requires rising { IsAscending def.now rows }
    ensures { result ≡ left_without def.now gone.now rows }
{
    match search(def, gone, rows.as_slice()) {
        Ok(at) => {
            let mut rows = rows;
            let _gone = rows.remove(at);
            rows
        }
        Err(_) => rows,
    }
}

/// A copy of these rows.
pub fn copy_rows(alloc: Global, rows: &[Row]) -> Result<RowList, Memory>
    ensures { IfOk result (λ all. all ≡ rows.now) }
{
    let mut all = RowList::new(alloc);
    for row in rows {
        all.push(row.copy(alloc)?)?;
    }
    Ok(all)
}

/// The rows with this one in the place of any that has its key.
#[tactic(auto, using(crate::proofs::Searching::put_found, crate::proofs::Searching::put_absent))]
fn put(alloc: Global, def: &TableDef, new: &Row, rows: RowList) -> Result<RowList, Memory>
    requires rising { IsAscending def.now rows }
    ensures { IfOk result (λ all. all ≡ put_in def.now new.now rows) }
{
    match search(def, new, rows.as_slice()) {
        Ok(at) => {
            let mut rows = rows;
            rows.set(at, new.copy(alloc)?);
            Ok(rows)
        }
        Err(at) => insert_at(alloc, rows, at, new.copy(alloc)?),
    }
}

/// The rows after a change of their table.
#[tactic(auto, using(crate::proofs::Ascent::without_ascends))]
pub fn rows_after(
    alloc: Global,
    def: &TableDef,
    rows: RowList,
    change: &Change,
) -> Result<RowList, Memory>
    requires rising { IsAscending def.now rows }
    ensures rows { IfOk result (λ all. all ≡ rows_behind def.now rows change.now) }
    ensures rising { IfOk result (λ all. IsAscending def.now all) }
{
    match change {
        Change::Insert { new, .. } => put(alloc, def, new, rows),
        Change::Update { old, new, .. } => put(alloc, def, new, without(def, old, rows)),
        Change::Delete { old, .. } => Ok(without(def, old, rows)),
    }
}
