//! Logs whose sequence numbers come to their end, and files that had something before.
use crate::reopened::LOG;
use crate::steps::{batch_of, write};
use mr_base::{Disk, FullKind, Stop};
use mr_engine_log::EngineLog;
use mr_memhost::MemHost;
use std::alloc::Global;
use std::test::Fail;

/// Sequence numbers are below this one.
const SEQUENCES: u64 = 1 << 63;

const FULL: Stop = Stop::Full {
    what: FullKind::Sequence,
    at: SEQUENCES,
    limit: SEQUENCES,
};

/// What `room` and then `write` answer on a new log behind this number, and the last number then.
fn answers_behind(alloc: Global, base: u64) -> Result<(Option<Stop>, Option<Stop>, u64), Stop> {
    let mut host = MemHost::new(alloc);
    let mut log = EngineLog::create(&mut host, LOG, base)?;
    let batch = batch_of(alloc, 1)?;
    let room = log.room(&batch).err();
    let written = write(alloc, &mut host, &mut log).err();
    Ok((room, written, log.last()))
}

#[test]
fn numbers_end_below_two_to_the_63(rt: HostRuntime) -> Result<(), Fail> {
    let alloc = rt.alloc();
    let last = answers_behind(alloc, SEQUENCES - 2);
    assert_eq!(rt; last, Ok((None, None, SEQUENCES - 1)));
    let behind = answers_behind(alloc, SEQUENCES - 1);
    assert_eq!(rt; behind, Ok((Some(FULL), Some(FULL), SEQUENCES - 1)));
    Ok(())
}

/// The bytes of a file that had these before a log was made in it.
fn made_over(alloc: Global, bytes: &[u8]) -> Result<bool, Stop> {
    let mut host = MemHost::new(alloc);
    host.add_file(LOG, bytes)?;
    let log = EngineLog::create(&mut host, LOG, 7)?;
    Ok(log.bytes() == 1 && log.last() == 7 && host.file(LOG) == [0].as_slice())
}

#[test]
fn a_new_log_has_nothing_of_the_file(rt: HostRuntime) -> Result<(), Fail> {
    for bytes in [&[][..], &[0], &[0xA7], &[0xA7, 0, 0, 0, 2, 0, 3, 0]] {
        assert_eq!(rt; made_over(rt.alloc(), bytes), Ok(true));
    }
    Ok(())
}
