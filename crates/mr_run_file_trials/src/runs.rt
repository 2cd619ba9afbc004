//! Runs of one version, of one block, of one key with many versions, and of long values.
use mr_base::{Direction, Memory, Stop};
use mr_iter::{Cursor, Listed, RunInfo, RunOut};
use mr_memhost::MemHost;
use mr_run_cursor::PinnedCursor;
use mr_run_open::Run;
use mr_run_writer::{RunFiles, RunWriter};
use std::alloc::Global;
use std::test::Fail;

pub const FILE: u64 = 16;

/// A block of the deletion of `a` and a put of 7 as `b`, the index, and the footer.
pub const SMALL: &[u8; 111] =
    b"\0\0\0\x02\0\0\0\x0c\0\0\0\x1e\0\0\0\x01a\0\0\0\0\0\0\0\x02\x02\0\0\0\0\0\0\0\x01b\0\0\0\0\0\0\0\x01\x01\0\0\0\x01\x07\0\0\0\0\0\0\0\0\0\0\0\x31\0\0\0\x01a\0\0\0\x01b\0\0\0\0\0\0\0\x31\0\0\0\0\0\0\0\x16\0\0\0\0\0\0\0\x01\0\0\0\0\0\0\0\x02MRRUN001";

fn write_small(alloc: Global, host: &mut MemHost) -> Result<RunInfo, Stop> {
    let mut writer = RunWriter::new(FILE, Direction::Forward, alloc);
    writer.add(host, b"a", 2, None)?;
    writer.add(host, b"b", 1, Some(&[7]))?;
    writer.finish(host)
}

/// One key with so many versions of this value.
fn write_versions(
    alloc: Global,
    host: &mut MemHost,
    count: u32,
    value: &[u8],
) -> Result<RunInfo, Stop> {
    let mut writer = RunWriter::new(FILE, Direction::Forward, alloc);
    'adding: for number in 0..count {
        writer.add(host, b"key", (count - number) as u64, Some(value))?;
    }
    writer.finish(host)
}

/// Whether a cursor stands on this version; the bytes of the sequence number are big-endian.
pub fn stands_on(
    cursor: &PinnedCursor<'_>,
    key: &[u8],
    sequence: &[u8],
    put: Option<&[u8]>,
) -> bool {
    if cursor.at_end() {
        return false;
    }
    let number = cursor.sequence().to_be_bytes();
    cursor.key() == key
        && number.as_slice() == sequence
        && cursor.is_put() == put.is_some()
        && cursor.value() == put.unwrap_or(&[])
}

/// Goes one version on, if it stands on one.
pub fn go_on(cursor: &mut PinnedCursor<'_>, host: &mut MemHost) -> Result<(), Stop> {
    if cursor.at_end() {
        return Ok(());
    }
    cursor.next(host)
}

/// Whether a walk over a run gives one key with so many versions of this value.
fn walk_is(
    alloc: Global,
    host: &mut MemHost,
    run: &Run,
    count: u32,
    value: &[u8],
) -> Result<bool, Stop> {
    let mut cursor = PinnedCursor::new(alloc, run);
    cursor.seek(host, b"")?;
    'walking: for number in 0..count {
        let sequence = ((count - number) as u64).to_be_bytes();
        if !stands_on(&cursor, b"key", &sequence, Some(value)) {
            return Ok(false);
        }
        go_on(&mut cursor, host)?;
    }
    Ok(cursor.at_end())
}

/// Whether that run is written and read back.
fn is_read_back(alloc: Global, host: &mut MemHost, count: u32, value: &[u8]) -> Result<bool, Stop> {
    let info = write_versions(alloc, host, count, value)?;
    let run = Run::open(alloc, host, &info, Direction::Forward)?;
    walk_is(alloc, host, &run, count, value)
}

/// The same run as the small one, by a place for runs; the bytes of its entries and what it answers.
fn write_by<W: RunOut<MemHost>>(files: &mut W, host: &mut MemHost) -> Result<(u64, RunInfo), Stop> {
    files.begin(FILE);
    files.add(host, b"a", 2, None)?;
    files.add(host, b"b", 1, Some(&[7]))?;
    let bytes = files.bytes();
    Ok((bytes, files.finish(host)?))
}

fn write_by_files(alloc: Global, host: &mut MemHost) -> Result<(u64, RunInfo), Stop> {
    let mut files = RunFiles::new(Direction::Forward, alloc);
    write_by(&mut files, host)
}

/// The number of the footer that is counted from its end, in words of 8 bytes.
fn footer_number(file: &[u8], back: usize) -> Option<u64> {
    let from = file.len().checked_sub(back.checked_mul(8)?)?;
    let bytes = file.get(from..from.checked_add(8)?)?;
    match bytes {
        [a, b, c, d, e, f, g, h] => Some(u64::from_be_bytes([*a, *b, *c, *d, *e, *f, *g, *h])),
        _ => None,
    }
}

#[test]
fn a_small_run_byte_for_byte(rt: HostRuntime) -> Result<(), Fail> {
    let mut host = MemHost::new(rt.alloc());
    assert_eq!(rt;
        write_small(rt.alloc(), &mut host),
        Ok(RunInfo {
            file: FILE,
            length: 111,
            entries: 2
        })
    );
    assert!(rt; host.file(FILE) == SMALL.as_slice());
    assert_eq!(rt; host.syncs(), 1);
    assert_eq!(rt; host.reads(), 0);
    Ok(())
}

#[test]
fn a_place_for_runs_writes_the_same(rt: HostRuntime) -> Result<(), Fail> {
    let mut host = MemHost::new(rt.alloc());
    let info = RunInfo {
        file: FILE,
        length: 111,
        entries: 2,
    };
    assert_eq!(rt; write_by_files(rt.alloc(), &mut host), Ok((37, info)));
    assert!(rt; host.file(FILE) == SMALL.as_slice());
    Ok(())
}

#[test]
fn a_run_of_one_version(rt: HostRuntime) -> Result<(), Fail> {
    let mut host = MemHost::new(rt.alloc());
    assert_eq!(rt;
        write_versions(rt.alloc(), &mut host, 1, b""),
        Ok(RunInfo {
            file: FILE,
            length: 94,
            entries: 1
        })
    );
    assert_eq!(rt; footer_number(host.file(FILE), 3), Some(1));
    Ok(())
}

/// An entry has 30 bytes and a place of 4, so that the 121st fills a block.
#[test]
fn one_key_with_many_versions(rt: HostRuntime) -> Result<(), Fail> {
    let mut host = MemHost::new(rt.alloc());
    let info = write_versions(rt.alloc(), &mut host, 3000, b"0123456789");
    assert!(rt; matches!(info, Ok(RunInfo { entries: 3000, .. })));
    assert_eq!(rt; footer_number(host.file(FILE), 3), Some(25));
    assert_eq!(rt; footer_number(host.file(FILE), 2), Some(3000));
    assert_eq!(rt; host.syncs(), 1);
    Ok(())
}

/// Each long value fills its block, of 65,563 bytes: a cut, a write for each of the four, the rest, and a sync.
#[test]
fn long_values(rt: HostRuntime) -> Result<(), Fail> {
    let mut host = MemHost::new(rt.alloc());
    let info = write_versions(rt.alloc(), &mut host, 4, &[7; 65_535]);
    assert!(rt; matches!(info, Ok(RunInfo { entries: 4, .. })));
    assert_eq!(rt; footer_number(host.file(FILE), 3), Some(4));
    assert_eq!(rt; host.calls(), 7);
    Ok(())
}

#[test]
fn runs_are_read_back(rt: HostRuntime) -> Result<(), Fail> {
    let alloc = rt.alloc();
    assert_eq!(rt;
        is_read_back(alloc, &mut MemHost::new(alloc), 1, b""),
        Ok(true)
    );
    assert_eq!(rt;
        is_read_back(alloc, &mut MemHost::new(alloc), 120, b"0123456789"),
        Ok(true)
    );
    assert_eq!(rt;
        is_read_back(alloc, &mut MemHost::new(alloc), 3000, b"0123456789"),
        Ok(true)
    );
    assert_eq!(rt;
        is_read_back(alloc, &mut MemHost::new(alloc), 4, &[7; 65_535]),
        Ok(true)
    );
    Ok(())
}

/// A call that fails ends the run, at the cut, at the write and at the sync.
#[test]
fn a_fault_ends_the_run(rt: HostRuntime) -> Result<(), Fail> {
    assert_eq!(rt; stopped_at(rt.alloc(), 1), Ok(Err(Stop::Disk)));
    assert_eq!(rt; stopped_at(rt.alloc(), 2), Ok(Err(Stop::Disk)));
    assert_eq!(rt; stopped_at(rt.alloc(), 3), Ok(Err(Stop::Disk)));
    Ok(())
}

fn stopped_at(alloc: Global, call: u64) -> Result<Result<RunInfo, Stop>, Memory> {
    let mut host = MemHost::new(alloc);
    host.fail_calls(&[call])?;
    Ok(write_small(alloc, &mut host))
}
