//! The one key that a condition leaves of a primary key.

ghost use Rattle.std.specs.Prelude.{◌≡◌, ◌≤◌, IfOk, IfSome, None, true, length, slice_get, unwrap_or};
ghost use Rattle.mr_types.specs.declared.value.Value.TheVariants.{Null};
ghost use Rattle.std.specs.Option.{option_copied};
ghost use Rattle.std.specs.declared.cmp.Ordering.TheVariants.{Equal};
ghost use Rattle.mr_types.specs.declared.row.Row.{Row as ARow};
ghost use Rattle.mr_types.specs.Rows.{IsRowOf};
ghost use Rattle.mr_memcmp.specs.Fitting.{AllFit};
ghost use Rattle.mr_memcmp.specs.KeyOrder.{columns_cmp};
ghost use Rattle.mr_plan.specs.Columns.{fixed as fixed_by, keeps};
ghost use Rattle.mr_plan.specs.Keys.{is_fitting as does_fit};
ghost use Rattle.mr_plan.specs.Points.{are_fixed as all_fixed, is_point as leaves_one, fixed_from, point_of};

use crate::columns::fixed;
use crate::literals::is_fitting;
use mr_base::Memory;
use mr_spec::Bound;
use mr_types::{Row, TableDef, Value, ValueList};
use sqlite_items::at;
use std::alloc::Global;

/// Whether a column is fixed by `=` to a value that it may have.
fn is_fixed_to(def: &TableDef, expr: Option<&Bound>, place: u8) -> bool
    ensures { result ≡ does_fit (slice_get def.now.columns place) (fixed_by place (option_copied expr.entry)) }
{
    match at(def.columns.as_slice(), place as usize) {
        None => false,
        Some(column) => match fixed(expr, place) {
            None => false,
            Some(value) => is_fitting(column.ty, value),
        },
    }
}

fn are_fixed(def: &TableDef, expr: Option<&Bound>, places: &[u8]) -> bool
    ensures { result ≡ all_fixed def.now (option_copied expr.entry) places.now }
{
    for place in places {
        if !is_fixed_to(def, expr, *place) {
            return false;
        }
    }
    true
}

fn is_point(def: &TableDef, expr: Option<&Bound>, places: &[u8]) -> bool
    ensures { result ≡ leaves_one def.now (option_copied expr.entry) places.now }
{
    if places.is_empty() {
        return false;
    }
    are_fixed(def, expr, places)
}

/// The value that a column is fixed to, NULL where there is none.
fn fixed_value(alloc: Global, expr: Option<&Bound>, place: u8) -> Result<Value, Memory>
    ensures { IfOk result (λ value. value ≡ unwrap_or (fixed_by place (option_copied expr.entry)) Null) }
{
    match fixed(expr, place) {
        None => Ok(Value::Null),
        Some(value) => value.copy(alloc),
    }
}

/// The values that the columns are fixed to.
fn fixed_values(alloc: Global, def: &TableDef, expr: Option<&Bound>) -> Result<ValueList, Memory>
    requires { length def.now.columns ≤ 255 }
    ensures { IfOk result (λ values. values ≡ fixed_from (option_copied expr.entry) 0 def.now.columns) }
{
    let mut values = ValueList::new(alloc);
    for place in 0..def.columns.len() {
        values.push(fixed_value(alloc, expr, place as u8)?)?;
    }
    Ok(values)
}

/// A row with the one primary key that a condition leaves, where an AND fixes each column of a key
/// that isn't hidden by `=`; of several such tests of a column the first counts. The other columns
/// are NULL, or what they are fixed to. None where the condition doesn't fix the key, or fixes it to
/// what no row has. A definition that was checked has few columns.
#[tactic(auto, using(crate::proofs::OnePoint::point_fits, crate::proofs::OnePoint::point_same))]
pub fn point(alloc: Global, def: &TableDef, expr: Option<&Bound>) -> Result<Option<Row>, Memory>
    requires { length def.now.columns ≤ 255 }
    ensures is { IfOk result (λ point. point ≡ point_of def.now (option_copied expr.entry)) }
    ensures fits { IfOk result (λ point. IfSome point (λ row. AllFit def.now.columns row.fields def.now.primary.columns)) }
    ensures same { IfOk result (λ point. IfSome point (λ given. (row : ARow) → IsRowOf def.now row → keeps def.now (option_copied expr.entry) row ≡ true → columns_cmp def.now.columns def.now.primary.columns row.fields given.fields ≡ Equal)) }
{
    if !is_point(def, expr, def.primary.columns.as_slice()) {
        return Ok(None);
    }
    Ok(Some(Row {
        hidden: None,
        stamp: None,
        fields: fixed_values(alloc, def, expr)?,
    }))
}
