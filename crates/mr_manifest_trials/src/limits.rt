//! Edits that take more file numbers than there are.
use crate::files::{BEGUN, host_of, run_in};
use mr_base::{FullKind, Stop};
use mr_manifest::{Edit, Manifest};
use std::alloc::Global;
use std::test::Fail;

/// The greatest next file number.
const LAST: u64 = 1 << 63;

/// The byte of `BEGUN` where the next file number begins.
const NEXT_FILE: usize = 37;

/// `BEGUN` with this next file number.
fn begun_with(next_file: u64) -> [u8; 55] {
    let mut bytes = BEGUN;
    bytes[NEXT_FILE..NEXT_FILE + 8].copy_from_slice(&next_file.to_be_bytes());
    bytes
}

/// What adding these edits answers where that is the next file number; and whether nothing was written and the manifest
/// is closed.
fn added(alloc: Global, next_file: u64, edits: &[Edit]) -> Result<(Result<(), Stop>, bool), Stop> {
    let bytes = begun_with(next_file);
    let mut host = host_of(alloc, &bytes)?;
    let mut manifest = Manifest::open(alloc, &mut host)?;
    let calls = host.calls();
    let answer = manifest.append(alloc, &mut host, edits);
    let is_untouched = host.calls() == calls && host.file(0) == bytes.as_slice();
    Ok((answer, is_untouched && !manifest.is_open()))
}

/// The answer that says that there are no such numbers.
fn full_at(next_file: u64) -> Result<(Result<(), Stop>, bool), Stop> {
    let full = Stop::Full {
        what: FullKind::File,
        at: next_file,
        limit: LAST,
    };
    Ok((Err(full), true))
}

#[test]
fn full_comes_before_any_write(rt: HostRuntime) -> Result<(), Fail> {
    let alloc = rt.alloc();
    let one = added(alloc, LAST, &[run_in(17)]);
    assert_eq!(rt; one, full_at(LAST));
    let log = added(alloc, LAST, &[Edit::LiveLog(17)]);
    assert_eq!(rt; log, full_at(LAST));
    let two = added(alloc, LAST - 1, &[run_in(17), Edit::LiveLog(18)]);
    assert_eq!(rt; two, full_at(LAST - 1));
    Ok(())
}

#[test]
fn the_last_numbers_may_be_taken(rt: HostRuntime) -> Result<(), Fail> {
    let alloc = rt.alloc();
    let one = added(alloc, LAST - 1, &[run_in(17)]);
    assert_eq!(rt; one, Ok((Ok(()), false)));
    let none = added(alloc, LAST, &[Edit::RunDropped(17), Edit::NextFile(LAST)]);
    assert_eq!(rt; none, Ok((Ok(()), false)));
    Ok(())
}
