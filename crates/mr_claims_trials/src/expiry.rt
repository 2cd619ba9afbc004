//! Expiry at both ends of 64 bits, and entries that a filter keeps.
ghost use Rattle.std.specs.Prelude.{◌<◌, IfOk};
ghost use Rattle.mr_ttl.specs.Durations.{HaveRisingIndexes, DontFall};

use mr_base::Memory;
use mr_iter::Filter;
use mr_ttl::{Duration, DurationList, NumberList, TtlFilter, expired};
use std::alloc::Global;
use std::test::Fail;

#[test]
fn expiry_at_both_ends(rt: HostRuntime) -> Result<(), Fail> {
    for (stamp, duration, moment, is) in [
        (10u64, 5u64, 15u64, true),
        (10, 5, 14, false),
        (0, 1, 0, false),
        (0, u64::MAX, u64::MAX, true),
        (1, u64::MAX, u64::MAX, false),
        (u64::MAX, 1, u64::MAX, false),
        (u64::MAX, u64::MAX, 0, false),
        (u64::MAX - 1, 1, u64::MAX, true),
    ] {
        assert_eq!(rt; expired(stamp, duration, moment), is);
    }
    Ok(())
}

/// Two durations, of which the first has the lower index.
fn two_durations(alloc: Global, first: Duration, second: Duration) -> Result<DurationList, Memory>
    requires { first.index < second.index }
    ensures { IfOk result (λ v. HaveRisingIndexes v.items) }
{
    match Vec::from_array(alloc, [first, second]) {
        Ok(two) => Ok(two),
        Err(_) => Err(Memory),
    }
}

/// Two numbers, of which the first is lower.
fn two_numbers(alloc: Global, first: u32, second: u32) -> Result<NumberList, Memory>
    requires { first < second }
    ensures { IfOk result (λ v. DontFall v.items) }
{
    match Vec::from_array(alloc, [first, second]) {
        Ok(two) => Ok(two),
        Err(_) => Err(Memory),
    }
}

/// Whether an entry is kept at moment 100, where rows of index 256 live 10 seconds and those of 300 as long as can be, and 257 and
/// 259 are dropped.
fn is_kept(alloc: Global, key: &[u8], value: &[u8]) -> Result<bool, Memory> {
    let short = Duration {
        index: 256,
        seconds: 10,
    };
    let long = Duration {
        index: 300,
        seconds: u64::MAX,
    };
    let durations = two_durations(alloc, short, long)?;
    let dropped = two_numbers(alloc, 257, 259)?;
    let filter = TtlFilter::new(100, durations, dropped);
    Ok(filter.keep(key, value))
}

#[test]
fn entries_that_are_kept(rt: HostRuntime) -> Result<(), Fail> {
    for (key, value, is) in [
        (
            b"\0\0\x01\0k".as_slice(),
            b"\0\0\0\0\0\0\0\x5Av".as_slice(),
            false,
        ),
        (b"\0\0\x01\0", b"\0\0\0\0\0\0\0\x5A", false),
        (b"\0\0\x01\0k", b"\0\0\0\0\0\0\0\x5Bv", true),
        (b"\0\0\x01\x01k", b"\0\0\0\0\0\0\0\x5Bv", false),
        (b"\0\0\x01\x02k", b"", true),
        (b"\0\0\x01\x03k", b"", false),
        (b"\0\0\x01\x2C", b"\0\0\0\0\0\0\0\0", true),
        (b"\0\0\x01\x2D", b"\0\0\0\0\0\0\0\0", true),
        (b"\0\0\x01", b"\0\0\0\0\0\0\0\0", true),
    ] {
        assert_eq!(rt; is_kept(rt.alloc(), key, value), Ok(is));
    }
    Ok(())
}
