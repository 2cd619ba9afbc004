//! What two lists of ranges have in common.

ghost use Rattle.std.specs.Prelude.{◌≡◌, ◌++◌, ◌&&◌, ℕ, List, IfOk, OnOk};
ghost use Rattle.mr_ranges.specs.Ranges.{later as the_later, ends_first as is_first, sooner as the_sooner, common, in_some, AreApart};

use crate::range::{Range, RangeList, precedes, push_between};
use mr_base::{Blob, Memory};
use std::alloc::Global;

/// The greater of two keys.
fn later<'a>(a: &'a Blob, b: &'a Blob) -> &'a Blob
    ensures { result.now ≡ the_later a.now b.now }
{
    if precedes(a.as_slice(), b.as_slice()) {
        b
    } else {
        a
    }
}

/// Whether the one end comes at or before the other.
pub(crate) fn ends_first(a: &Option<Blob>, b: &Option<Blob>) -> bool
    ensures { result ≡ is_first a.now b.now }
{
    match (a, b) {
        (_, None) => true,
        (None, Some(_)) => false,
        (Some(a), Some(b)) => !precedes(b.as_slice(), a.as_slice()),
    }
}

/// The lesser of two ends.
fn sooner<'a>(a: &'a Option<Blob>, b: &'a Option<Blob>) -> &'a Option<Blob>
    ensures { result.now ≡ the_sooner a.now b.now }
{
    if ends_first(a, b) { a } else { b }
}

/// Adds what two ranges have in common.
fn push_common(alloc: Global, out: &mut RangeList, x: &Range, y: &Range) -> Result<(), Memory>
    ensures { OnOk result (out.new ≡ out.old ++ common x.now y.now) }
{
    push_between(alloc, out, later(&x.low, &y.low), sooner(&x.high, &y.high))
}

/// What two lists of ranges have in common, in order.
pub fn meet(alloc: Global, first: &[Range], second: &[Range]) -> Result<RangeList, Memory>
    requires first { AreApart first.now }
    requires second { AreApart second.now }
    ensures apart { IfOk result (λ out. AreApart out) }
    ensures both { IfOk result (λ out. (key : List ℕ) → in_some key out ≡ (in_some key first.now && in_some key second.now)) }
{
    let mut out = RangeList::new(alloc);
    let (mut left, mut right) = (first, second);
    'meeting: while let Some((x, xs)) = left.split_first() {
        let Some((y, ys)) = right.split_first() else {
            break;
        };
        push_common(alloc, &mut out, x, y)?;
        if ends_first(&x.high, &y.high) {
            left = xs;
        } else {
            right = ys;
        }
    }
    Ok(out)
}
