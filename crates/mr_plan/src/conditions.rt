//! Ranges of keys from what a condition says of one column.

ghost use Rattle.std.specs.Prelude.{◌≡◌, ◌&&◌, ◌||◌, ℕ, List, IfOk, Some, slice_get};
ghost use Rattle.std.specs.List.{list_any};
ghost use Rattle.std.specs.Option.{option_copied};
ghost use Rattle.mr_types.specs.declared.expr.Cmp.TheVariants.{Eq, Ge, Le};
ghost use Rattle.mr_ranges.specs.Ranges.{in_some, AreApart};
ghost use Rattle.mr_plan.specs.Tests.{test_ranges as tested, whole as all, says_of, says};

use crate::tests_of::{null_ranges, test_ranges, whole};
use mr_base::Memory;
use mr_ranges::{RangeList, joined, meet};
use mr_spec::Bound;
use mr_types::{Cmp, ColumnDef, TableDef, Value};
use std::alloc::Global;

/// The keys whose column lies between two literals.
fn between_ranges(
    alloc: Global,
    def: &TableDef,
    place: u8,
    column: &ColumnDef,
    front: &[u8],
    low: &Value,
    high: &Value,
) -> Result<RangeList, Memory>
    requires { slice_get def.now.columns place ≡ Some column.now }
    ensures apart { IfOk result (λ ranges. AreApart ranges) }
    ensures same { IfOk result (λ ranges. (key : List ℕ) → in_some key ranges ≡ (in_some key (tested front.now column.now.ty Ge low.now) && in_some key (tested front.now column.now.ty Le high.now))) }
{
    let above = test_ranges(alloc, def, place, column, front, Cmp::Ge, low)?;
    let below = test_ranges(alloc, def, place, column, front, Cmp::Le, high)?;
    meet(alloc, above.as_slice(), below.as_slice())
}

/// The keys whose column is one of some literals.
fn one_of_ranges(
    alloc: Global,
    def: &TableDef,
    place: u8,
    column: &ColumnDef,
    front: &[u8],
    values: &[Value],
) -> Result<RangeList, Memory>
    requires { slice_get def.now.columns place ≡ Some column.now }
    ensures apart { IfOk result (λ ranges. AreApart ranges) }
    ensures same { IfOk result (λ ranges. (key : List ℕ) → in_some key ranges ≡ list_any (λ v. in_some key (tested front.now column.now.ty Eq v)) values.now) }
{
    let mut some = RangeList::new(alloc);
    for value in values {
        some.append(test_ranges(alloc, def, place, column, front, Cmp::Eq, value)?)?;
    }
    joined(alloc, some)
}

/// The keys that a condition leaves, as far as it says something of the column.
fn ranges_of(
    alloc: Global,
    def: &TableDef,
    place: u8,
    column: &ColumnDef,
    front: &[u8],
    expr: &Bound,
) -> Result<RangeList, Memory>
    requires { slice_get def.now.columns place ≡ Some column.now }
    ensures apart { IfOk result (λ ranges. AreApart ranges) }
    ensures same { IfOk result (λ ranges. (key : List ℕ) → in_some key ranges ≡ says_of front.now column.now.ty place key expr.now) }
{
    match expr {
        Bound::Compare(at, cmp, value) => {
            if *at != place {
                return whole(alloc, front);
            }
            test_ranges(alloc, def, place, column, front, *cmp, value)
        }
        Bound::IsNull(at) => {
            if *at != place {
                return whole(alloc, front);
            }
            null_ranges(alloc, def, place, column, front)
        }
        Bound::Between(at, low, high) => {
            if *at != place {
                return whole(alloc, front);
            }
            between_ranges(alloc, def, place, column, front, low, high)
        }
        Bound::OneOf(at, values) => {
            if *at != place {
                return whole(alloc, front);
            }
            one_of_ranges(alloc, def, place, column, front, values.as_slice())
        }
        Bound::Not(_) => whole(alloc, front),
        Bound::And(parts) => {
            let mut left = whole(alloc, front)?;
            for part in parts.as_slice() {
                let its = ranges_of(alloc, def, place, column, front, part)?;
                left = meet(alloc, left.as_slice(), its.as_slice())?;
            }
            Ok(left)
        }
        Bound::Or(parts) => {
            let mut some = RangeList::new(alloc);
            for choice in parts.as_slice() {
                some.append(ranges_of(alloc, def, place, column, front, choice)?)?;
            }
            joined(alloc, some)
        }
    }
}

/// The same of a condition that may not be there.
pub(crate) fn column_ranges(
    alloc: Global,
    def: &TableDef,
    place: u8,
    column: &ColumnDef,
    front: &[u8],
    expr: Option<&Bound>,
) -> Result<RangeList, Memory>
    requires { slice_get def.now.columns place ≡ Some column.now }
    ensures apart { IfOk result (λ ranges. AreApart ranges) }
    ensures same { IfOk result (λ ranges. (key : List ℕ) → in_some key ranges ≡ says front.now column.now.ty place key (option_copied expr.entry)) }
{
    match expr {
        None => whole(alloc, front),
        Some(expr) => ranges_of(alloc, def, place, column, front, expr),
    }
}
