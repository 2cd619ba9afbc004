//! The filter by which a compaction drops entries.
ghost use Rattle.mr_ttl.specs.Durations.{HaveRisingIndexes, DontFall};

use crate::duration::{DurationList, NumberList};
use crate::fronts::index_of;
use crate::lookups::{has_expired, is_dropped};
use mr_iter::Filter;

/// Drops the entries of dropped indexes, and those that are expired at a moment: an entry's index number stands in front of its key,
/// and where the rows of that index expire, its stamp in front of its value.
#[derive(Drop)]
pub struct TtlFilter {
    moment: u64,
    durations: DurationList,
    dropped: NumberList,
    ghost rising: { HaveRisingIndexes durations.items },
    ghost in_order: { DontFall dropped.items },
}

impl TtlFilter {
    ghost use Rattle.std.specs.Prelude.{◌≡◌, ℕ, List};
    ghost use Rattle.mr_ttl.specs.Durations.{HaveRisingIndexes, DontFall};
    ghost use Rattle.mr_ttl.specs.Filters.{keeps_of};
    ghost use Rattle.mr_ttl.specs.Kept.{filter_keeps};

    /// A filter for the moment, in seconds: the durations' indexes rise, and the dropped numbers don't fall. Takes no memory.
    pub fn new(moment: u64, durations: DurationList, dropped: NumberList) -> TtlFilter
        requires rising { HaveRisingIndexes durations.items }
        requires in_order { DontFall dropped.items }
        ensures { (key value : List ℕ) → filter_keeps result key value ≡ keeps_of moment durations.items dropped.items key value }
    {
        TtlFilter {
            moment,
            durations,
            dropped,
        }
    }
}

impl Filter for TtlFilter {
    ghost use Rattle.mr_ttl.specs.Kept.{filter_keeps};

    ghost keeps = { filter_keeps };

    fn keep(&self, key: &[u8], value: &[u8]) -> bool {
        match index_of(key) {
            Some(index) => {
                !is_dropped(&self.dropped, index)
                    && !has_expired(&self.durations, self.moment, index, value)
            }
            None => true,
        }
    }
}
