//! Look-ups of one key with more versions than a block holds, and of a run that is damaged.
use mr_base::{Direction, Memory, Stop};
use mr_block_cache::BlockCache;
use mr_iter::RunInfo;
use mr_memhost::MemHost;
use mr_run_get::get;
use mr_run_open::Run;
use mr_run_writer::RunWriter;
use std::alloc::Global;
use std::test::Fail;

const FILE: u64 = 16;

/// One key with so many versions, which take 25 blocks.
const VERSIONS: u64 = 3000;

fn write(alloc: Global, host: &mut MemHost) -> Result<RunInfo, Stop> {
    let mut writer = RunWriter::new(FILE, Direction::Forward, alloc);
    'adding: for past in 0..VERSIONS {
        writer.add(host, b"key", VERSIONS - past, Some(b"0123456789"))?;
    }
    writer.finish(host)
}

/// The sequence number that a look-up at a number finds, 0 where it finds none; and its reads.
fn sequence_at(
    alloc: Global,
    host: &mut MemHost,
    run: &Run,
    cache: &mut BlockCache,
    number: u64,
) -> Result<(u64, u64), Stop> {
    let before = host.reads();
    let sequence = match get(alloc, run, host, cache, b"key", number)? {
        Some(found) => found.sequence(),
        None => 0,
    };
    Ok((sequence, host.reads().saturating_sub(before)))
}

/// The same of a run that is written, first at the last number, then at some others.
fn look_ups(alloc: Global) -> Result<([(u64, u64); 5], usize), Stop> {
    let mut host = MemHost::new(alloc);
    let info = write(alloc, &mut host)?;
    let run = Run::open(alloc, &mut host, &info, Direction::Forward)?;
    let mut cache = BlockCache::new(alloc)?;
    let last = sequence_at(alloc, &mut host, &run, &mut cache, u64::MAX)?;
    let there = sequence_at(alloc, &mut host, &run, &mut cache, VERSIONS)?;
    let middle = sequence_at(alloc, &mut host, &run, &mut cache, 1234)?;
    let first = sequence_at(alloc, &mut host, &run, &mut cache, 1)?;
    let none = sequence_at(alloc, &mut host, &run, &mut cache, 0)?;
    Ok(([last, there, middle, first, none], cache.len()))
}

#[test]
fn one_read_gets_all_blocks_of_a_key(rt: HostRuntime) -> Result<(), Fail> {
    let told = look_ups(rt.alloc());
    assert_eq!(rt;
        told,
        Ok(([(3000, 1), (3000, 0), (1234, 0), (1, 0), (0, 0)], 25))
    );
    Ok(())
}

/// A host whose run has these bytes, but for the one at this place.
fn host_with(alloc: Global, bytes: &[u8], place: usize) -> Result<MemHost, Memory> {
    let mut changed = bytes.to_vec(alloc)?;
    if let Some(byte) = changed.get_mut(place) {
        *byte ^= 0x40;
    }
    let mut host = MemHost::new(alloc);
    host.add_file(FILE, &changed)?;
    Ok(host)
}

/// What a look-up answers where this byte of the run is another.
fn damaged_at(alloc: Global, place: usize) -> Result<(u64, u64), Stop> {
    let mut written = MemHost::new(alloc);
    let info = write(alloc, &mut written)?;
    let mut host = host_with(alloc, written.file(FILE), place)?;
    let run = Run::open(alloc, &mut host, &info, Direction::Forward)?;
    let mut cache = BlockCache::new(alloc)?;
    sequence_at(alloc, &mut host, &run, &mut cache, u64::MAX)
}

/// The count of the first block; the place of the second entry of the second block, which begins at 4,118, has 121 entries of 30 bytes
/// and a place of 4 for each.
#[test]
fn damage_is_told_at_its_place(rt: HostRuntime) -> Result<(), Fail> {
    let alloc = rt.alloc();
    let first = Stop::Damaged { file: FILE, at: 4 };
    let second = Stop::Damaged {
        file: FILE,
        at: 4126,
    };
    assert_eq!(rt; damaged_at(alloc, 0), Err(first));
    assert_eq!(rt; damaged_at(alloc, 4127), Err(second));
    Ok(())
}
