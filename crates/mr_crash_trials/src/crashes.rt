//! What is out is some of the replies, in order. The reopened folder has the commits whose replies are out, and at most one more.

use crate::cases::{Case, ROWS, WHOLE};
use crate::running::{answers_of, crash, is_kept, replied, serve};
use mr_base::Memory;
use mr_memhost::{Choice, MemHost};
use std::alloc::Global;
use std::test::Fail;

/// What becomes of the calls since a file's last sync.
const CHOICES: [Choice; 4] = [
    Choice::Keep,
    Choice::Drop,
    Choice::Fill(0xA7),
    Choice::Fill(0),
];

/// Serves the script, crashes and reopens the folder. The status of the run, where all is as it should be.
fn status_where_kept(
    alloc: Global,
    case: &Case,
    mut host: MemHost,
    choice: Choice,
) -> Result<Option<u8>, Memory> {
    let ended = serve(alloc, case.script, &mut host)?;
    let Some(replies) = replied(alloc, case, &ended, &host)? else {
        return Ok(None);
    };
    let mut host = crash(host, choice)?;
    let Some(answers) = answers_of(alloc, case, &mut host)? else {
        return Ok(None);
    };
    let is_kept = is_kept(alloc, case, replies, &answers)?;
    Ok(if is_kept { Some(ended.status) } else { None })
}

/// The number of calls of the host in a run of the script on an empty folder.
fn calls_of(alloc: Global, case: &Case) -> Result<u64, Memory> {
    let mut host = MemHost::new(alloc);
    let _ = serve(alloc, case.script, &mut host)?;
    Ok(host.calls())
}

/// The status of a run that is stopped after so many calls.
fn status_of_stop(
    alloc: Global,
    case: &Case,
    last: u64,
    choice: Choice,
) -> Result<Option<u8>, Memory> {
    let mut host = MemHost::new(alloc);
    host.stop_after(last);
    status_where_kept(alloc, case, host, choice)
}

/// The first call behind which a stop is not survived, with the crash.
fn lost_by_a_stop(alloc: Global, case: &Case) -> Result<Option<(u64, Choice)>, Memory> {
    let calls = calls_of(alloc, case)?;
    for choice in CHOICES {
        for last in 0..calls {
            if !matches!(status_of_stop(alloc, case, last, choice)?, Some(5 | 6)) {
                return Ok(Some((last, choice)));
            }
        }
    }
    Ok(None)
}

#[test]
fn a_stop_at_each_call(rt: HostRuntime) -> Result<(), Fail> {
    for case in [ROWS, WHOLE] {
        assert_eq!(rt; lost_by_a_stop(rt.alloc(), &case), Ok(None));
    }
    Ok(())
}

/// Whether a run that nothing stops ends with this status.
fn is_whole(alloc: Global, case: &Case, status: u8) -> Result<bool, Memory> {
    for choice in CHOICES {
        if status_of_stop(alloc, case, u64::MAX, choice)? != Some(status) {
            return Ok(false);
        }
    }
    Ok(true)
}

#[test]
fn a_run_that_is_not_stopped(rt: HostRuntime) -> Result<(), Fail> {
    assert_eq!(rt; is_whole(rt.alloc(), &ROWS, 1), Ok(true));
    assert_eq!(rt; is_whole(rt.alloc(), &WHOLE, 0), Ok(true));
    Ok(())
}

/// The first call whose failure alone is not survived, with the crash.
fn lost_by_a_failure(alloc: Global, case: &Case) -> Result<Option<(u64, Choice)>, Memory> {
    let calls = calls_of(alloc, case)?;
    for choice in CHOICES {
        for call in 1..=calls {
            let mut host = MemHost::new(alloc);
            host.fail_calls(&[call])?;
            if !matches!(status_where_kept(alloc, case, host, choice)?, Some(5 | 6)) {
                return Ok(Some((call, choice)));
            }
        }
    }
    Ok(None)
}

#[test]
fn one_failing_call_at_each_place(rt: HostRuntime) -> Result<(), Fail> {
    for case in [ROWS, WHOLE] {
        assert_eq!(rt; lost_by_a_failure(rt.alloc(), &case), Ok(None));
    }
    Ok(())
}

/// The folder that a crash leaves of the script, which is stopped after so many calls, and the number of its replies.
fn folder_after(
    alloc: Global,
    case: &Case,
    last: u64,
    choice: Choice,
) -> Result<(Option<usize>, MemHost), Memory> {
    let mut host = MemHost::new(alloc);
    host.stop_after(last);
    let ended = serve(alloc, case.script, &mut host)?;
    let replies = replied(alloc, case, &ended, &host)?;
    Ok((replies, crash(host, choice)?))
}

/// Stops the script, then its reopening, and reopens the folder once more. Whether what was replied is kept, and what was answered is
/// answered again.
fn is_kept_twice(
    alloc: Global,
    case: &Case,
    stops: (u64, u64),
    choice: Choice,
) -> Result<bool, Memory> {
    let (replies, mut host) = folder_after(alloc, case, stops.0, Choice::Fill(0xA7))?;
    host.stop_after(stops.1);
    let first = answers_of(alloc, case, &mut host)?;
    let mut host = crash(host, choice)?;
    let Some(again) = answers_of(alloc, case, &mut host)? else {
        return Ok(false);
    };
    let is_same = first.is_none_or(|first| first.as_slice() == again.as_slice());
    match replies {
        Some(replies) => Ok(is_same && is_kept(alloc, case, replies, &again)?),
        None => Ok(false),
    }
}

/// The number of calls of the host in a reopening behind the whole script.
fn calls_to_reopen(alloc: Global, case: &Case) -> Result<u64, Memory> {
    let (_, mut host) = folder_after(alloc, case, u64::MAX, Choice::Keep)?;
    let _ = answers_of(alloc, case, &mut host)?;
    Ok(host.calls())
}

/// The first stops of the script and of its reopening that are not survived.
fn lost_by_two_stops(
    alloc: Global,
    case: &Case,
    choice: Choice,
) -> Result<Option<(u64, u64)>, Memory> {
    let calls = calls_of(alloc, case)?;
    let reopening = calls_to_reopen(alloc, case)?;
    for last in 0..calls {
        for opening in 0..reopening {
            if !is_kept_twice(alloc, case, (last, opening), choice)? {
                return Ok(Some((last, opening)));
            }
        }
    }
    Ok(None)
}

#[test]
fn a_stop_in_the_reopening(rt: HostRuntime) -> Result<(), Fail> {
    for case in [ROWS, WHOLE] {
        for choice in CHOICES {
            assert_eq!(rt; lost_by_two_stops(rt.alloc(), &case, choice), Ok(None));
        }
    }
    Ok(())
}

/// The syncs and the faults of a run that is stopped right before the reply to the row, and whether the row is there behind each crash.
/// One sync makes the log, and each of the two commits has two.
fn row_before_its_reply(alloc: Global, choice: Choice) -> Result<(u8, u64, u64, bool), Memory> {
    let script =
        b"CREATE TABLE t (id BIGINT NOT NULL, v BIGINT, PRIMARY KEY (id)); INSERT INTO t VALUES (1,2);";
    let case = Case {
        script,
        answers: "ROWS 1/1\t2/",
        ..ROWS
    };
    let last = calls_of(alloc, &case)?.saturating_sub(1);
    let mut host = MemHost::new(alloc);
    host.stop_after(last);
    let ended = serve(alloc, script, &mut host)?;
    let counts = (host.syncs(), host.faults());
    let mut host = crash(host, choice)?;
    let answers = answers_of(alloc, &case, &mut host)?;
    let is_there = answers.is_some_and(|answers| answers.as_slice()
        == b"ROWS 1\n1\t2\n".as_slice());
    Ok((ended.status, counts.0, counts.1, is_there))
}

#[test]
fn a_commit_outlives_its_reply(rt: HostRuntime) -> Result<(), Fail> {
    for choice in CHOICES {
        assert_eq!(rt;
            row_before_its_reply(rt.alloc(), choice),
            Ok((6, 5, 0, true))
        );
    }
    Ok(())
}
