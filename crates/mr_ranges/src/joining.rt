//! All that some ranges hold, in order.

ghost use Rattle.std.specs.Prelude.{◌≡◌, ◌||◌, ℕ, List, IfOk};
ghost use Rattle.mr_ranges.specs.Ranges.{farther as the_farther, reaches as does_reach, in_some, AreApart, AreRising};

use crate::meeting::ends_first;
use crate::range::{Range, RangeList, precedes, push_between};
use mr_base::{Blob, Memory};
use mr_memcmp::compare_keys;
use std::alloc::{AllocError, Global};

/// Whether an end comes at or behind a key.
fn reaches(high: &Option<Blob>, key: &[u8]) -> bool
    ensures { result ≡ does_reach high.now key.now }
{
    match high {
        None => true,
        Some(high) => !precedes(high.as_slice(), key),
    }
}

/// The greater of two ends.
fn farther<'a>(a: &'a Option<Blob>, b: &'a Option<Blob>) -> &'a Option<Blob>
    ensures { result.now ≡ the_farther a.now b.now }
{
    if ends_first(a, b) { b } else { a }
}

/// Moves ranges into a `Vec`, in any order.
fn moved(alloc: Global, ranges: RangeList) -> Result<Vec<Range>, AllocError>
    ensures { IfOk result (λ out. (key : List ℕ) → in_some key out.items ≡ in_some key ranges) }
{
    let mut left = ranges;
    let mut out = Vec::new(alloc);
    'moving: while let Some(range) = left.pop() {
        out.push(range)?;
    }
    Ok(out)
}

/// The ranges by where they begin.
fn in_order(ranges: Vec<Range>) -> Vec<Range>
    ensures rising { AreRising result.items }
    ensures same { (key : List ℕ) → in_some key result.items ≡ in_some key ranges.items }
{
    let mut out = ranges;
    out.sort_unstable_by(|a, b| compare_keys(a.low.as_slice(), b.low.as_slice()));
    out
}

/// Ranges that begin one behind the other, joined where they meet.
fn swept(alloc: Global, ranges: &[Range]) -> Result<RangeList, Memory>
    requires { AreRising ranges.now }
    ensures apart { IfOk result (λ out. AreApart out) }
    ensures same { IfOk result (λ out. (key : List ℕ) → in_some key out ≡ in_some key ranges.now) }
{
    let mut out = RangeList::new(alloc);
    let Some((first, others)) = ranges.split_first() else {
        return Ok(out);
    };
    let (mut low, mut high, mut left) = (&first.low, &first.high, others);
    'sweeping: while let Some((next, rest)) = left.split_first() {
        if reaches(high, next.low.as_slice()) {
            high = farther(high, &next.high);
        } else {
            push_between(alloc, &mut out, low, high)?;
            low = &next.low;
            high = &next.high;
        }
        left = rest;
    }
    push_between(alloc, &mut out, low, high)?;
    Ok(out)
}

/// The keys of these ranges, which may overlap and stand in any order, as ranges in order and apart.
pub fn joined(alloc: Global, ranges: RangeList) -> Result<RangeList, Memory>
    ensures apart { IfOk result (λ out. AreApart out) }
    ensures same { IfOk result (λ out. (key : List ℕ) → in_some key out ≡ in_some key ranges) }
{
    let sorted = in_order(moved(alloc, ranges)?);
    swept(alloc, sorted.as_slice())
}
