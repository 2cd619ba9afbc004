//! Ranges of an index from what a condition says of its first columns.

ghost use Rattle.std.specs.Prelude.{◌≡◌, ◌&&◌, ℕ, List, [], IfOk, Some, slice_get};
ghost use Rattle.std.specs.Option.{option_copied};
ghost use Rattle.mr_ranges.specs.Ranges.{in_some, AreApart};
ghost use Rattle.mr_plan.specs.Keys.{place_says, front_with as with_value, next_front, index_says};

use crate::columns::fixed;
use crate::conditions::column_ranges;
use crate::literals::{is_fitting, value_from};
use crate::tests_of::whole;
use mr_base::{Blob, Memory};
use mr_ranges::{RangeList, meet};
use mr_spec::Bound;
use mr_types::{ColumnDef, TableDef, Value};
use sqlite_items::at;
use std::alloc::Global;

/// The keys that are left, and the bytes of the columns so far, where the next column may be looked
/// at.
#[derive(Drop)]
struct Narrowed {
    ranges: RangeList,
    front: Option<Blob>,
}

fn front_with(
    alloc: Global,
    def: &TableDef,
    place: u8,
    column: &ColumnDef,
    front: &[u8],
    value: Option<&Value>,
) -> Result<Option<Blob>, Memory>
    requires { slice_get def.now.columns place ≡ Some column.now }
    ensures { IfOk result (λ more. more ≡ with_value front.now column.now (option_copied value.entry)) }
{
    match value {
        None => Ok(None),
        Some(value) => {
            if is_fitting(column.ty, value) {
                return Ok(Some(value_from(alloc, def, place, column, front, value)?));
            }
            Ok(None)
        }
    }
}

/// What a condition says of a column that is there.
fn narrowed_at(
    alloc: Global,
    def: &TableDef,
    place: u8,
    column: &ColumnDef,
    front: &[u8],
    expr: Option<&Bound>,
    ranges: &RangeList,
) -> Result<Narrowed, Memory>
    requires here { slice_get def.now.columns place ≡ Some column.now }
    requires apart { AreApart ranges.now }
    ensures apart { IfOk result (λ step. AreApart step.ranges) }
    ensures same { IfOk result (λ step. (key : List ℕ) → in_some key step.ranges ≡ (in_some key ranges.now && place_says def.now (option_copied expr.entry) front.now place key)) }
    ensures next { IfOk result (λ step. step.front ≡ next_front def.now (option_copied expr.entry) front.now place) }
{
    let its = column_ranges(alloc, def, place, column, front, expr)?;
    let left = meet(alloc, ranges.as_slice(), its.as_slice())?;
    let more = front_with(alloc, def, place, column, front, fixed(expr, place))?;
    Ok(Narrowed {
        ranges: left,
        front: more,
    })
}

/// The keys that a condition leaves in an index with columns at these places.
pub(crate) fn index_ranges(
    alloc: Global,
    def: &TableDef,
    places: &[u8],
    expr: Option<&Bound>,
) -> Result<RangeList, Memory>
    ensures apart { IfOk result (λ ranges. AreApart ranges) }
    ensures same { IfOk result (λ ranges. (key : List ℕ) → in_some key ranges ≡ index_says def.now (option_copied expr.entry) [] places.now key) }
{
    let mut front = Blob::from_slice(alloc, b"")?;
    let mut ranges = whole(alloc, b"")?;
    for place in places {
        let Some(column) = at(def.columns.as_slice(), *place as usize) else {
            return Ok(ranges);
        };
        let step = narrowed_at(alloc, def, *place, column, front.as_slice(), expr, &ranges)?;
        let Narrowed {
            ranges: left,
            front: more,
        } = step;
        ranges = left;
        match more {
            None => return Ok(ranges),
            Some(more) => front = more,
        }
    }
    Ok(ranges)
}
