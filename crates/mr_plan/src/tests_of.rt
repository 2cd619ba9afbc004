//! Ranges of keys from tests of one column.

ghost use Rattle.std.specs.Prelude.{◌≡◌, IfOk, Some, slice_get, true};
ghost use Rattle.mr_memcmp.specs.Above.{above_of};
ghost use Rattle.mr_plan.specs.Tests.{fits_column, floor as least, from_end as from_ends, whole as all, not_null as without_null, cmp_ranges as compared, test_ranges as tested, null_ranges as nulls, is_not_equal as other};

use crate::literals::{is_fitting, is_null, meets, side_of, value_from};
use mr_base::{Blob, Memory};
use mr_memcmp::above_prefix;
use mr_ranges::{RangeList, ranges_between};
use mr_types::{Cmp, ColumnDef, TableDef, Value};
use std::alloc::Global;

/// All keys that go on from the front.
pub(crate) fn whole(alloc: Global, front: &[u8]) -> Result<RangeList, Memory>
    ensures { IfOk result (λ ranges. ranges ≡ all front.now) }
{
    let high = above_prefix(alloc, front)?;
    ranges_between(alloc, Blob::from_slice(alloc, front)?, high)
}

fn from_end(alloc: Global, low: Option<Blob>, high: Option<Blob>) -> Result<RangeList, Memory>
    ensures { IfOk result (λ ranges. ranges ≡ from_ends low high) }
{
    match low {
        None => Ok(RangeList::new(alloc)),
        Some(low) => ranges_between(alloc, low, high),
    }
}

/// Where the keys without NULL begin.
fn floor(
    alloc: Global,
    def: &TableDef,
    place: u8,
    column: &ColumnDef,
    front: &[u8],
) -> Result<Option<Blob>, Memory>
    requires { slice_get def.now.columns place ≡ Some column.now }
    ensures { IfOk result (λ low. low ≡ least front.now column.now.ty) }
{
    if column.ty.nullable {
        let null = value_from(alloc, def, place, column, front, &Value::Null)?;
        return above_prefix(alloc, null.as_slice());
    }
    Ok(Some(Blob::from_slice(alloc, front)?))
}

fn not_null(
    alloc: Global,
    def: &TableDef,
    place: u8,
    column: &ColumnDef,
    front: &[u8],
) -> Result<RangeList, Memory>
    requires { slice_get def.now.columns place ≡ Some column.now }
    ensures { IfOk result (λ ranges. ranges ≡ without_null front.now column.now.ty) }
{
    let low = floor(alloc, def, place, column, front)?;
    from_end(alloc, low, above_prefix(alloc, front)?)
}

/// Against a literal that has bytes in the column.
fn cmp_ranges(
    alloc: Global,
    def: &TableDef,
    place: u8,
    column: &ColumnDef,
    front: &[u8],
    cmp: Cmp,
    value: &Value,
) -> Result<RangeList, Memory>
    requires here { slice_get def.now.columns place ≡ Some column.now }
    requires fits { fits_column column.now.ty value.now ≡ true }
    ensures { IfOk result (λ ranges. ranges ≡ compared front.now column.now.ty cmp value.now) }
{
    let at = value_from(alloc, def, place, column, front, value)?;
    match cmp {
        Cmp::Eq => {
            let high = above_prefix(alloc, at.as_slice())?;
            ranges_between(alloc, at, high)
        }
        Cmp::Ne => whole(alloc, front),
        Cmp::Lt => from_end(alloc, floor(alloc, def, place, column, front)?, Some(at)),
        Cmp::Le => {
            let high = above_prefix(alloc, at.as_slice())?;
            from_end(alloc, floor(alloc, def, place, column, front)?, high)
        }
        Cmp::Gt => {
            let low = above_prefix(alloc, at.as_slice())?;
            from_end(alloc, low, above_prefix(alloc, front)?)
        }
        Cmp::Ge => ranges_between(alloc, at, above_prefix(alloc, front)?),
    }
}

fn is_not_equal(cmp: Cmp) -> bool
    ensures { result ≡ other cmp }
{
    match cmp {
        Cmp::Ne => true,
        _ => false,
    }
}

/// The keys whose column meets a test; none meets one against NULL, and `<>` leaves all.
pub(crate) fn test_ranges(
    alloc: Global,
    def: &TableDef,
    place: u8,
    column: &ColumnDef,
    front: &[u8],
    cmp: Cmp,
    value: &Value,
) -> Result<RangeList, Memory>
    requires { slice_get def.now.columns place ≡ Some column.now }
    ensures { IfOk result (λ ranges. ranges ≡ tested front.now column.now.ty cmp value.now) }
{
    if is_not_equal(cmp) {
        return whole(alloc, front);
    }
    if is_null(value) {
        return Ok(RangeList::new(alloc));
    }
    if is_fitting(column.ty, value) {
        return cmp_ranges(alloc, def, place, column, front, cmp, value);
    }
    if meets(cmp, side_of(column.ty.kind, value)) {
        return not_null(alloc, def, place, column, front);
    }
    Ok(RangeList::new(alloc))
}

/// The keys whose column is NULL.
pub(crate) fn null_ranges(
    alloc: Global,
    def: &TableDef,
    place: u8,
    column: &ColumnDef,
    front: &[u8],
) -> Result<RangeList, Memory>
    requires { slice_get def.now.columns place ≡ Some column.now }
    ensures { IfOk result (λ ranges. ranges ≡ nulls front.now column.now.ty) }
{
    if !column.ty.nullable {
        return Ok(RangeList::new(alloc));
    }
    let null = value_from(alloc, def, place, column, front, &Value::Null)?;
    let high = above_prefix(alloc, null.as_slice())?;
    ranges_between(alloc, null, high)
}
