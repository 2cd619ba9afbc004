//! A range of keys.

ghost use Rattle.std.specs.Prelude.{◌≡◌, ◌++◌, IfOk, OnOk};
ghost use Rattle.mr_ranges.specs.Ranges.{precedes as before, is_under as under, between};

use mr_base::{Blob, Memory};
use mr_memcmp::compare_keys;
use sqlite_items::Items;
use std::alloc::Global;

/// Keys at or above `low` and, where there is such an end, below `high`.
#[derive(Drop)]
pub struct Range {
    pub low: Blob,
    pub high: Option<Blob>,
}

/// Ranges, which contracts see as a list.
pub type RangeList = Items<Range>;

/// Whether a key comes before another, byte by byte.
pub(crate) fn precedes(a: &[u8], b: &[u8]) -> bool
    ensures { result ≡ before a.now b.now }
{
    compare_keys(a, b).is_lt()
}

/// Whether a key is below an end.
pub(crate) fn is_under(high: &Option<Blob>, key: &[u8]) -> bool
    ensures { result ≡ under high.now key.now }
{
    match high {
        None => true,
        Some(high) => precedes(key, high.as_slice()),
    }
}

pub(crate) fn copy_end(alloc: Global, high: &Option<Blob>) -> Result<Option<Blob>, Memory>
    ensures { IfOk result (λ end. end ≡ high.now) }
{
    match high {
        None => Ok(None),
        Some(high) => Ok(Some(high.copy(alloc)?)),
    }
}

/// Adds the range from `low` up to below `high`, unless nothing lies there.
pub(crate) fn push_between(
    alloc: Global,
    out: &mut RangeList,
    low: &Blob,
    high: &Option<Blob>,
) -> Result<(), Memory>
    ensures { OnOk result (out.new ≡ out.old ++ between low.now high.now) }
{
    if is_under(high, low.as_slice()) {
        let range = Range {
            low: low.copy(alloc)?,
            high: copy_end(alloc, high)?,
        };
        out.push(range)?;
    }
    Ok(())
}

/// The range from `low` up to below `high`, or none where nothing lies there.
pub fn ranges_between(alloc: Global, low: Blob, high: Option<Blob>) -> Result<RangeList, Memory>
    ensures { IfOk result (λ out. out ≡ between low high) }
{
    let mut out = RangeList::new(alloc);
    if is_under(&high, low.as_slice()) {
        out.push(Range { low, high })?;
    }
    Ok(out)
}
