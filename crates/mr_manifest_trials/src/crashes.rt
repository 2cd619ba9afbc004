//! A stop at each call of an append, and the crash behind it.
use crate::files::{ADDED, BEGUN, host_of, open_and_append, second_record};
use mr_manifest::Manifest;
use mr_memhost::{Choice, MemHost};
use std::alloc::Global;
use std::test::Fail;

const CHOICES: [Choice; 4] = [
    Choice::Keep,
    Choice::Drop,
    Choice::Fill(0xA7),
    Choice::Fill(0),
];

/// An opening here and an append make fewer calls than so many.
const ENOUGH: u64 = 15;

/// Opens the manifest of a host and adds the second record, with a stop after so many calls and a crash behind it; then
/// opens again. Whether there are the edits from before, or these too, and these too where they were said to be there or
/// nothing stopped.
fn is_kept(alloc: Global, host: MemHost, stop: u64, choice: Choice) -> bool {
    let mut host = host;
    host.stop_after(stop);
    let is_added = open_and_append(alloc, &mut host, &second_record()).is_ok();
    let Ok(mut host) = host.crash(choice) else {
        return false;
    };
    if Manifest::open(alloc, &mut host).is_err() {
        return false;
    }
    let file = host.file(0);
    file == ADDED.as_slice() || !is_added && stop < ENOUGH && file == BEGUN.as_slice()
}

/// Whether that holds for each stop and this crash.
fn is_always_kept(alloc: Global, choice: Choice) -> bool {
    let mut is_kept_so_far = true;
    for stop in 0..16 {
        let Ok(host) = host_of(alloc, &BEGUN) else {
            return false;
        };
        is_kept_so_far = is_kept_so_far && is_kept(alloc, host, stop, choice);
    }
    is_kept_so_far
}

#[test]
fn a_stop_at_each_call_keeps_the_old_edits_or_these_too(rt: HostRuntime) -> Result<(), Fail> {
    for choice in CHOICES {
        assert!(rt; is_always_kept(rt.alloc(), choice));
    }
    Ok(())
}
