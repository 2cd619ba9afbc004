//! What is known of an index, by binary search.
ghost use Rattle.std.specs.Prelude.{◌≡◌};
ghost use Rattle.mr_ttl.specs.Durations.{seconds_of as living_seconds, HaveRisingIndexes, DontFall};
ghost use Rattle.mr_ttl.specs.Filters.{is_dropped as is_among, has_expired as is_over, stamp_of as stamp_in_front};

use crate::duration::Duration;
use crate::expiry::expired;
use crate::fronts::stamp_of;

/// The seconds that the rows of the index live, where its rows expire.
fn seconds_of(durations: &[Duration], index: u32) -> Option<u64>
    requires { HaveRisingIndexes durations.now }
    ensures { result ≡ living_seconds durations.now index }
{
    match durations.binary_search_by_key(&index, |duration| duration.index) {
        Ok(place) => Some(durations[place].seconds),
        Err(_) => None,
    }
}

/// Whether the index number is among these.
pub fn is_dropped(dropped: &[u32], index: u32) -> bool
    requires { DontFall dropped.now }
    ensures { result ≡ is_among dropped.now index }
{
    dropped.binary_search(&index).is_ok()
}

/// Whether an entry of this index with this value is expired at the moment.
pub fn has_expired(durations: &[Duration], moment: u64, index: u32, value: &[u8]) -> bool
    requires { HaveRisingIndexes durations.now }
    ensures { result ≡ is_over moment (living_seconds durations.now index) (stamp_in_front value.now) }
{
    match (seconds_of(durations, index), stamp_of(value)) {
        (Some(duration), Some(stamp)) => expired(stamp, duration, moment),
        _ => false,
    }
}
