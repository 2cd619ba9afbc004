//! Stops at each call, and the crash behind them.
use crate::logs::{FAR, host_of, open_and_append};
use mr_gate::GateLog;
use mr_memhost::{Choice, MemHost};
use std::alloc::Global;
use std::test::Fail;

const CHOICES: [Choice; 4] = [
    Choice::Keep,
    Choice::Drop,
    Choice::Fill(0xA7),
    Choice::Fill(0),
];

/// An opening here makes at most 7 calls, and an append 6.
const ENOUGH: u64 = 13;

/// Opens the log of a host and adds a record, with a stop after so many calls and a crash behind it; then opens again,
/// with a stop and a crash too, and once more. Whether the log has the records from before, or these and the new one,
/// and the new one where it was said to be there or nothing stopped.
fn is_kept(host: MemHost, stops: [u64; 2], choice: Choice, before: &[u8], after: &[u8]) -> bool {
    let mut host = host;
    host.stop_after(stops[0]);
    let is_added = open_and_append(&mut host).is_ok();
    let Ok(mut host) = host.crash(choice) else {
        return false;
    };
    host.stop_after(stops[1]);
    let _ = GateLog::open(&mut host, 1, 0, FAR);
    let Ok(mut host) = host.crash(choice) else {
        return false;
    };
    if GateLog::open(&mut host, 1, 0, FAR).is_err() {
        return false;
    }
    let file = host.file(1);
    file == after || !is_added && stops[0] < ENOUGH && file == before
}

/// Whether that holds for each pair of stops and each crash.
fn is_always_kept(alloc: Global, bytes: &[u8], before: &[u8], after: &[u8]) -> bool {
    let mut is_kept_so_far = true;
    for choice in CHOICES {
        for first in 0..15 {
            for second in 0..9 {
                let Some(host) = host_of(alloc, bytes) else {
                    return false;
                };
                is_kept_so_far = is_kept_so_far
                    && is_kept(host, [first, second], choice, before, after);
            }
        }
    }
    is_kept_so_far
}

/// A log of one record.
const ONE: [u8; 7] = [0xA7, 0, 0, 0, 1, 8, 0];

/// And with the record that is added.
const TWO: [u8; 13] = [0xA7, 0, 0, 0, 1, 8, 0xA7, 0, 0, 0, 1, 9, 0];

#[test]
fn a_stop_at_each_call_keeps_the_log(rt: HostRuntime) -> Result<(), Fail> {
    assert!(rt; is_always_kept(rt.alloc(), &ONE, &ONE, &TWO));
    Ok(())
}

#[test]
fn a_stop_at_each_call_on_an_empty_file(rt: HostRuntime) -> Result<(), Fail> {
    assert!(rt; is_always_kept(rt.alloc(), &[], &[0], &[0xA7, 0, 0, 0, 1, 9, 0]));
    Ok(())
}

/// Behind the one record: an open gate alone; a closed gate with a byte behind it; one with a whole record behind it.
#[test]
fn a_stop_at_each_call_of_a_repair(rt: HostRuntime) -> Result<(), Fail> {
    let alone = [0xA7, 0, 0, 0, 1, 8, 0xA7];
    assert!(rt; is_always_kept(rt.alloc(), &alone, &ONE, &TWO));
    let short = [0xA7, 0, 0, 0, 1, 8, 0x11, 0xA7];
    assert!(rt; is_always_kept(rt.alloc(), &short, &ONE, &TWO));
    let whole = [0xA7, 0, 0, 0, 1, 8, 0x11, 0, 0, 0, 1, 5, 0];
    assert!(rt; is_always_kept(rt.alloc(), &whole, &ONE, &TWO));
    Ok(())
}
