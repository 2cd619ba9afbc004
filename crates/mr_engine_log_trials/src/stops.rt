//! A stop at each call of a script, and the crash behind it.
use crate::beside::left_by;
use crate::reopened::open_again;
use crate::steps::run;
use mr_base::Memory;
use mr_memhost::{Choice, MemHost};
use std::alloc::Global;
use std::test::Fail;

const CHOICES: [Choice; 4] = [
    Choice::Keep,
    Choice::Drop,
    Choice::Fill(0xA7),
    Choice::Fill(0),
];

/// Ten steps, of which eight add a record.
const SCRIPT: &[u8] = b"wpcwpaspcs";

/// The script makes fewer calls than so many.
const ENOUGH: u64 = 60;

/// Whether a log leaves this behind so many steps.
fn is_left(alloc: Global, found: &[u8], steps: usize) -> Result<bool, Memory> {
    let left = left_by(alloc, &SCRIPT[..steps.min(SCRIPT.len())])?;
    Ok(left.as_slice() == found)
}

/// Whether a stop after so many calls and a crash leave what was before the step that stopped or behind it, and all steps where nothing stopped.
fn is_kept(alloc: Global, stop: u64, choice: Choice) -> Result<bool, Memory> {
    let mut host = MemHost::new(alloc);
    host.stop_after(stop);
    let done = run(alloc, &mut host, SCRIPT);
    let Ok(mut host) = host.crash(choice) else {
        return Err(Memory);
    };
    let mut found = Vec::new(alloc);
    if open_again(alloc, &mut host, &mut found).is_err() {
        return Ok(false);
    }
    let is_whole = stop < ENOUGH || done == SCRIPT.len();
    let is_before = is_left(alloc, &found, done)?;
    let is_behind = is_left(alloc, &found, done.saturating_add(1))?;
    Ok(is_whole && (is_before || is_behind))
}

/// Whether that holds for each stop.
fn is_always_kept(alloc: Global, choice: Choice) -> bool {
    let mut is_kept_so_far = true;
    for stop in 0..ENOUGH + 1 {
        is_kept_so_far = is_kept_so_far && is_kept(alloc, stop, choice) == Ok(true);
    }
    is_kept_so_far
}

#[test]
fn a_stop_at_each_call_keeps_what_the_log_left(rt: HostRuntime) -> Result<(), Fail> {
    for choice in CHOICES {
        assert!(rt; is_always_kept(rt.alloc(), choice));
    }
    Ok(())
}
