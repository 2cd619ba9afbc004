//! How long a merge of versions in memory into runs takes: `mr_compact_bench 100000 1000000`. Any other word stands for 10,000
//! versions.
#![tactic(auto)]

ghost use Rattle.std.specs.Prelude.{◌≡◌, ◌≤◌, ◌*◌};
ghost use Rattle.mr_base.specs.declared.stop.Direction.TheVariants.{Forward};

mod counting;
mod unused;

use crate::counting::{Counting, KeepAll};
use crate::unused::Unused;
use mr_base::{Direction, Stop};
use mr_compact::merge_runs;
use mr_iter::RunInfo;
use mr_memtable::Memtable;
use std::alloc::Global;
use std::time::Instant;
use std::{env, io};

/// The next number of a generator.
fn next(x: u64) -> u64 {
    x.wrapping_mul(6364136223846793005)
        .wrapping_add(1442695040888963407)
}

/// Inserts so many versions with 4 bytes of value in random order: of one table's keys, an index number and a BIGINT, of which
/// there are about a million.
fn fill(table: &mut Memtable, count: usize)
    requires entries { count ≤ table.old.entries }
    requires bytes { 16 * count ≤ table.old.bytes }
    ensures { table.new.direction ≡ table.old.direction }
{
    let mut x = 1;
    for i in 0..count {
        x = next(x);
        let a = x.to_be_bytes();
        let key = [0, 0, 1, 0, 128, 0, 0, 0, 0, a[0], a[1], a[2] & 240];
        table.insert(&key, i as u64, Some(b"text"));
    }
}

/// How many entries runs have.
fn entries_of(runs: &[RunInfo]) -> u64 {
    let mut sum = 0u64;
    for run in runs {
        sum = sum.saturating_add(run.entries);
    }
    sum
}

/// Merges the versions of a memtable, of which those that aren't past a number needn't be seen one by one, into runs, and gives
/// how many of them the runs have.
fn merge(alloc: Global, table: &Memtable, oldest: u64) -> Result<u64, Stop>
    requires { table.now.direction ≡ Forward }
{
    let mut disk = Unused { faults: 0 };
    let mut out = Counting {
        direction: Direction::Forward,
        file: None,
        bytes: 0,
        entries: 0,
    };
    let mut cursor = table.cursor();
    let runs = merge_runs(
        alloc,
        &mut disk,
        &mut cursor,
        &mut out,
        &KeepAll,
        oldest,
        true,
        1,
    )?;
    Ok(entries_of(runs.as_slice()))
}

fn main(rt: HostRuntime) -> io::Result<()> {
    for word in env::args(&rt)?.skip(1) {
        let count = match word.as_str() {
            "100000" => 100000,
            "1000000" => 1000000,
            _ => 10000,
        };
        let mut table = Memtable::new(rt.alloc(), Direction::Forward);
        if table.reserve(count, 16 * count).is_err() {
            return Ok(());
        }
        fill(&mut table, count);
        let start = Instant::now(&rt)?;
        let Ok(kept) = merge(rt.alloc(), &table, u64::MAX) else {
            return Ok(());
        };
        let took = start.elapsed(&rt)?.as_micros();
        println!(rt; "{count} versions, {kept} of them kept, {took} us")?;
    }
    Ok(())
}
