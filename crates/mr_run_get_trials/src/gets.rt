//! Look-ups in runs of several blocks, beside what was written.
ghost use Rattle.std.specs.Prelude.{◌≡◌, ◌+◌, OnOk};
ghost use Rattle.mr_base.specs.Disk.{Tells, file_of};
ghost use Rattle.mr_memhost.specs.Host.{disk_state};
ghost use Rattle.mr_run_writer.specs.Drafts.{Stands};

use mr_base::{Direction, Stop};
use mr_block::Found;
use mr_block_cache::BlockCache;
use mr_iter::RunInfo;
use mr_memhost::MemHost;
use mr_run_get::get;
use mr_run_open::Run;
use mr_run_writer::RunWriter;
use std::alloc::Global;
use std::test::Fail;

/// The keys of a run are the even numbers below this one, each with two versions.
const BEHIND: u16 = 600;

/// How many blocks such a run has: an entry has 59 bytes and a place of 4, or 19 and 4, so that some 60 to 80 fill one.
const BLOCKS: u64 = 9;

/// The sequence number of the older version of a key. The newer one has 1,000 more, and is a deletion where 8 divides the key.
fn older(key: u16) -> u64
    ensures { result ≡ 2000 + key }
{
    2000 + key as u64
}

/// The value of a key of this file.
fn value_of(file: u64, key: u16) -> [u8; 40] {
    [(key % 200) as u8 + (file % 2) as u8; 40]
}

fn add_key(writer: &mut RunWriter, host: &mut MemHost, file: u64, key: u16) -> Result<(), Stop>
    requires { Tells (disk_state host.old) → Stands writer.old (file_of (disk_state host.old) writer.old.buffer.file).bytes }
    ensures { Tells (disk_state host.new) → OnOk result (Stands writer.new (file_of (disk_state host.new) writer.new.buffer.file).bytes) }
{
    let value = value_of(file, key);
    let newer = if key % 8 == 0 {
        None
    } else {
        Some(value.as_slice())
    };
    writer.add(host, &key.to_be_bytes(), older(key) + 1000, newer)?;
    writer.add(host, &key.to_be_bytes(), older(key), Some(&value))
}

/// Writes such a run to a file.
fn write(alloc: Global, host: &mut MemHost, file: u64) -> Result<RunInfo, Stop> {
    let mut writer = RunWriter::new(file, Direction::Forward, alloc);
    'adding: for key in 0..BEHIND / 2 {
        add_key(&mut writer, host, file, 2 * key)?;
    }
    writer.finish(host)
}

/// Writes one and opens it.
fn run_of(alloc: Global, host: &mut MemHost, file: u64) -> Result<Run, Stop> {
    let info = write(alloc, host, file)?;
    Run::open(alloc, host, &info, Direction::Forward)
}

/// The sequence number of a key's newest version that isn't past a number, and whether it is a put.
fn newest(key: u16, number: u64) -> Option<(u64, bool)> {
    if key >= BEHIND || key % 2 == 1 || number < older(key) {
        None
    } else if number < older(key) + 1000 {
        Some((older(key), true))
    } else {
        Some((older(key) + 1000, key % 8 != 0))
    }
}

/// Whether a look-up found what was written.
fn is_right(found: Option<Found>, file: u64, key: u16, number: u64) -> bool {
    match (found, newest(key, number)) {
        (None, None) => true,
        (Some(found), Some((sequence, is_put))) => {
            let value = value_of(file, key);
            found.key() == key.to_be_bytes().as_slice()
                && found.sequence() == sequence
                && found.is_put() == is_put
                && found.value() == if is_put { value.as_slice() } else { &[] }
        }
        _ => false,
    }
}

/// Whether the look-up of a key is right at each number around its versions.
fn is_found(
    alloc: Global,
    host: &mut MemHost,
    run: &Run,
    cache: &mut BlockCache,
    key: u16,
) -> Result<bool, Stop> {
    let file = run.info().file;
    let mut is_so = true;
    for number in [
        0,
        older(key) - 1,
        older(key),
        older(key) + 999,
        older(key) + 1000,
        u64::MAX,
    ] {
        let found = get(alloc, run, host, cache, &key.to_be_bytes(), number)?;
        is_so = is_so && is_right(found, file, key, number);
    }
    Ok(is_so)
}

/// Whether that is so of all keys, and of others around them.
fn are_found(
    alloc: Global,
    host: &mut MemHost,
    run: &Run,
    cache: &mut BlockCache,
) -> Result<bool, Stop> {
    let mut is_so = true;
    for key in 0..BEHIND + 20 {
        is_so = is_found(alloc, host, run, cache, key)? && is_so;
    }
    Ok(is_so)
}

/// How many reads a pass over all keys makes; and whether it found each.
fn reads_of_pass(
    alloc: Global,
    host: &mut MemHost,
    run: &Run,
    cache: &mut BlockCache,
) -> Result<Option<u64>, Stop> {
    let before = host.reads();
    let is_so = are_found(alloc, host, run, cache)?;
    Ok(if is_so {
        Some(host.reads().saturating_sub(before))
    } else {
        None
    })
}

/// The reads of a first pass, and of one behind it.
fn cold_and_warm(alloc: Global) -> Result<[Option<u64>; 2], Stop> {
    let mut host = MemHost::new(alloc);
    let run = run_of(alloc, &mut host, 16)?;
    let mut cache = BlockCache::new(alloc)?;
    let cold = reads_of_pass(alloc, &mut host, &run, &mut cache)?;
    let warm = reads_of_pass(alloc, &mut host, &run, &mut cache)?;
    Ok([cold, warm])
}

#[test]
fn each_block_is_read_once(rt: HostRuntime) -> Result<(), Fail> {
    assert_eq!(rt; cold_and_warm(rt.alloc()), Ok([Some(BLOCKS), Some(0)]));
    Ok(())
}

/// The reads of a look-up with a cache that holds nothing.
fn reads_alone(alloc: Global, host: &mut MemHost, run: &Run, key: u16) -> Result<u64, Stop> {
    let mut cache = BlockCache::new(alloc)?;
    let before = host.reads();
    let found = get(alloc, run, host, &mut cache, &key.to_be_bytes(), u64::MAX)?;
    let reads = host.reads().saturating_sub(before);
    Ok(if is_right(found, run.info().file, key, u64::MAX) {
        reads
    } else {
        u64::MAX
    })
}

/// Whether each look-up alone makes one read.
fn is_one_read_each(alloc: Global) -> Result<bool, Stop> {
    let mut host = MemHost::new(alloc);
    let run = run_of(alloc, &mut host, 16)?;
    let mut is_so = true;
    for key in 0..BEHIND + 20 {
        is_so = reads_alone(alloc, &mut host, &run, key)? == 1 && is_so;
    }
    Ok(is_so)
}

#[test]
fn a_cold_look_up_reads_once(rt: HostRuntime) -> Result<(), Fail> {
    assert_eq!(rt; is_one_read_each(rt.alloc()), Ok(true));
    Ok(())
}

/// The reads of passes over two runs in one cache, whose blocks stand at the same places of two files.
fn two_runs(alloc: Global) -> Result<[Option<u64>; 3], Stop> {
    let mut host = MemHost::new(alloc);
    let one = run_of(alloc, &mut host, 16)?;
    let two = run_of(alloc, &mut host, 17)?;
    let mut cache = BlockCache::new(alloc)?;
    let first = reads_of_pass(alloc, &mut host, &one, &mut cache)?;
    let second = reads_of_pass(alloc, &mut host, &two, &mut cache)?;
    let again = reads_of_pass(alloc, &mut host, &one, &mut cache)?;
    Ok([first, second, again])
}

#[test]
fn blocks_of_two_files_stand_apart(rt: HostRuntime) -> Result<(), Fail> {
    assert_eq!(rt;
        two_runs(rt.alloc()),
        Ok([Some(BLOCKS), Some(BLOCKS), Some(0)])
    );
    Ok(())
}
