//! What is timed.
use mr_base::{Direction, Disk, Stop};
use mr_block_cache::BlockCache;
use mr_iter::{Cursor, Listed, RunInfo};
use mr_run_cursor::PinnedCursor;
use mr_run_get::get;
use mr_run_open::Run;
use mr_run_writer::RunWriter;
use std::alloc::Global;

/// How many look-ups are timed.
const LOOK_UPS: u32 = 100_000;

/// The key with this number: 16 bytes in the order of the numbers.
pub fn key_of(number: u32) -> [u8; 16] {
    let [a, b, c, d] = number.to_be_bytes();
    [0, 0, 1, 0, 0, 0, 0, 0, 0, 0, 0, 0, a, b, c, d]
}

/// Writes a run of so many keys to file 16.
pub fn write_run<D: Disk>(alloc: Global, disk: &mut D, count: u32) -> Result<RunInfo, Stop> {
    let value = [7u8; 100];
    let mut writer = RunWriter::new(16, Direction::Forward, alloc);
    'adding: for number in 0..count {
        writer.add(disk, &key_of(number), 1, Some(&value))?;
    }
    writer.finish(disk)
}

/// The next number of a generator.
fn next(x: u64) -> u64 {
    x.wrapping_mul(6364136223846793005)
        .wrapping_add(1442695040888963407)
}

/// Looks random ones of the first keys up, and counts those that are found.
pub fn look_up<D: Disk>(
    alloc: Global,
    disk: &mut D,
    run: &Run,
    cache: &mut BlockCache,
    among: u32,
) -> Result<u32, Stop> {
    let mut x = 1u64;
    let mut found = 0u32;
    for _ in 0..LOOK_UPS {
        x = next(x);
        let key = key_of((x >> 33) as u32 % among.max(1));
        if get(alloc, run, disk, cache, &key, u64::MAX)?.is_some() {
            found = found.saturating_add(1);
        }
    }
    Ok(found)
}

/// The bytes of keys and values that a walk over all of a run is lent.
pub fn walk<D: Disk>(alloc: Global, disk: &mut D, run: &Run) -> Result<u64, Stop> {
    let mut bytes = 0u64;
    let mut cursor = PinnedCursor::new(alloc, run);
    cursor.seek(disk, b"")?;
    for _ in 0..run.info().entries {
        if cursor.at_end() {
            break;
        }
        bytes = bytes.wrapping_add(cursor.key().len() as u64);
        bytes = bytes.wrapping_add(cursor.value().len() as u64);
        cursor.next(disk)?;
    }
    Ok(bytes)
}
