//! How long inserts of keys of one table in random order into a memtable take, with one `reserve` for all, one for each hundred and
//! one for each; how long look-ups of these keys take; and a walk over as many in eight memtables as one:
//! `mr_memtable_bench 100000 1000000`. Any other word stands for 10,000 inserts.
#![tactic(auto)]

ghost use Rattle.std.specs.Prelude.{◌≡◌, false, [], IfOk, ◌+◌, ◌*◌, ◌≤◌, ◌<◌, map};
ghost use Rattle.std.specs.List.{AllByRecursion};
ghost use Rattle.std.proofs.Common.{sym};
ghost use mathlib.Core.Bool.{true≢false};
ghost use Rattle.mr_base.specs.Disk.{at_rest};
ghost use Rattle.mr_base.specs.declared.stop.Direction.TheVariants.{Forward};
ghost use Rattle.mr_iter.specs.Merging.{IsOneDirection};
ghost use Rattle.mr_memtable.specs.Tables.{MemState};

use mr_base::{Direction, Disk, DiskFault, Memory, Stop};
use mr_iter::{Cursor, Listed, Merge};
use mr_memtable::{MemCursor, Memtable};
use std::alloc::Global;
use std::time::Instant;
use std::{env, io};

/// A disk that tells nothing and that no cursor over memory uses.
#[derive(Drop)]
struct Unused {
    faults: u64,
}

impl Disk for Unused {
    ghost disk = { λ b. record { tells = false; moments = λ k. record { files = λ f. at_rest []; output = [] }; now = 0; faults = b.faults; emit_faults = 0; reads = 0; asked = 0; syncs = 0 } };

    ghost read_may_be_left = { λ b file tells. absurd (true≢false (sym tells)) };

    fn read(&mut self, _: u64, _: u64, _: &mut [u8]) -> Result<usize, DiskFault> {
        self.faults = self.faults.saturating_add(1);
        Err(DiskFault)
    }

    fn write_at(&mut self, _: u64, _: u64, _: &[u8]) -> Result<(), DiskFault> {
        self.faults = self.faults.saturating_add(1);
        Err(DiskFault)
    }

    fn cut(&mut self, _: u64, _: u64) -> Result<(), DiskFault> {
        self.faults = self.faults.saturating_add(1);
        Err(DiskFault)
    }

    fn sync(&mut self, _: u64) -> Result<(), DiskFault> {
        self.faults = self.faults.saturating_add(1);
        Err(DiskFault)
    }

    fn length(&mut self, _: u64) -> Result<u64, DiskFault> {
        self.faults = self.faults.saturating_add(1);
        Err(DiskFault)
    }
}

/// The next number of a generator.
fn next(x: u64) -> u64 {
    x.wrapping_mul(6364136223846793005)
        .wrapping_add(1442695040888963407)
}

/// Inserts so many keys of one table, which the seed determines: an index number, and a random BIGINT below 2^32. The result is the seed
/// of further keys.
fn fill(table: &mut Memtable, count: usize, seed: u64) -> u64
    requires entries { count ≤ table.old.entries }
    requires bytes { 12 * count ≤ table.old.bytes }
    ensures { table.new.direction ≡ table.old.direction }
{
    let mut x = seed;
    for i in 0..count {
        x = next(x);
        let a = x.to_be_bytes();
        let key = [0, 0, 1, 0, 128, 0, 0, 0, a[0], a[1], a[2], a[3]];
        table.insert(&key, i as u64, Some(b""));
    }
    x
}

/// Inserts the keys of `fill` so many at a time, with a `reserve` before each of these times.
fn fill_in_steps(table: &mut Memtable, times: usize, count: usize) -> Result<(), Memory>
    requires { count ≤ 1000 }
{
    let mut x = 1;
    for _ in 0..times {
        table.reserve(count, 12 * count)?;
        x = fill(table, count, x);
    }
    Ok(())
}

/// How many microseconds the longest `reserve` for a hundred keys takes, of so many.
fn longest_reserve(rt: &HostRuntime, table: &mut Memtable, times: usize) -> io::Result<u128> {
    let mut x = 1;
    let mut longest = 0;
    for _ in 0..times {
        let start = Instant::now(rt)?;
        if table.reserve(100, 1200).is_err() {
            return Ok(longest);
        }
        longest = longest.max(start.elapsed(rt)?.as_micros());
        x = fill(table, 100, x);
    }
    Ok(longest)
}

/// How many of so many keys of `fill` are found.
fn look_up(table: &Memtable, count: usize, seed: u64) -> u64 {
    let mut x = seed;
    let mut found = 0u64;
    for _ in 0..count {
        x = next(x);
        let a = x.to_be_bytes();
        let key = [0, 0, 1, 0, 128, 0, 0, 0, a[0], a[1], a[2], a[3]];
        if table.newest(&key, u64::MAX).is_some() {
            found = found.saturating_add(1);
        }
    }
    found
}

/// A memtable with so many random keys.
fn table_of(alloc: Global, count: usize, seed: u64) -> Result<Memtable, Memory>
    requires { count ≤ 1000000 }
    ensures { IfOk result (λ t. t.direction ≡ Forward) }
{
    let mut table = Memtable::new(alloc, Direction::Forward);
    table.reserve(count, 12 * count)?;
    fill(&mut table, count, seed);
    Ok(table)
}

/// Eight memtables with so many random keys each.
fn eight_tables(alloc: Global, count: usize) -> Result<Vec<Memtable>, Memory>
    requires { count ≤ 1000000 }
    ensures { IfOk result (λ ts. AllByRecursion (λ (t : MemState). t.direction ≡ Forward) ts.items) }
{
    let mut tables = Vec::new(alloc);
    'making: for seed in 1..9u64 {
        let table = table_of(alloc, count, seed)?;
        match tables.push(table) {
            Ok(()) => {}
            Err(_) => return Err(Memory),
        }
    }
    Ok(tables)
}

/// A cursor over each memtable.
fn cursors_of<'a>(alloc: Global, tables: &'a [Memtable]) -> Result<Vec<MemCursor<'a>>, Memory>
    requires { AllByRecursion (λ (t : MemState). t.direction ≡ Forward) tables.now }
    ensures { IfOk result (λ cs. IsOneDirection Forward (map ⟦<MemCursor<'a> as Listed>⟧.cursor cs.items)) }
{
    let mut cursors = Vec::new(alloc);
    'opening: for table in tables {
        let cursor = table.cursor();
        match cursors.push(cursor) {
            Ok(()) => {}
            Err(_) => return Err(Memory),
        }
    }
    Ok(cursors)
}

/// How many steps a cursor takes to its end.
fn count_steps<D: Disk, C: Cursor<D>>(disk: &mut D, cursor: &mut C) -> Result<u64, Stop> {
    let mut steps = 0u64;
    'walking: while !cursor.at_end() {
        cursor.next(disk)?;
        steps = steps.saturating_add(1);
    }
    Ok(steps)
}

/// Merges the memtables, seeks the first version, and counts the steps to the end.
fn walk(alloc: Global, tables: &[Memtable]) -> Result<u64, Stop>
    requires { AllByRecursion (λ (t : MemState). t.direction ≡ Forward) tables.now }
{
    let cursors = cursors_of(alloc, tables)?;
    let mut merge = Merge::new(cursors, Direction::Forward)?;
    let mut disk = Unused { faults: 0 };
    merge.seek(&mut disk, b"")?;
    count_steps(&mut disk, &mut merge)
}

/// Prints how long so many look-ups take.
fn time_look_ups(rt: &HostRuntime, table: &Memtable, count: usize) -> io::Result<()> {
    let start = Instant::now(rt)?;
    let found = look_up(table, count, 1);
    let took = start.elapsed(rt)?.as_micros();
    println!(rt; "{count} look-ups, {found} found, {took} us")?;
    Ok(())
}

/// Prints how long so many inserts take with a `reserve` before each `step` of them.
fn time_steps(rt: &HostRuntime, count: usize, step: usize) -> io::Result<()>
    requires some { 0 < step }
    requires few { step ≤ 1000 }
{
    let mut table = Memtable::new(rt.alloc(), Direction::Forward);
    let start = Instant::now(rt)?;
    if fill_in_steps(&mut table, count / step, step).is_err() {
        return Ok(());
    }
    let took = start.elapsed(rt)?.as_micros();
    println!(rt; "{count} inserts, a reserve for each {step}, {took} us")?;
    Ok(())
}

fn main(rt: HostRuntime) -> io::Result<()> {
    for word in env::args(&rt)?.skip(1) {
        let count = match word.as_str() {
            "100000" => 100000,
            "1000000" => 1000000,
            _ => 10000,
        };
        let mut table = Memtable::new(rt.alloc(), Direction::Forward);
        if table.reserve(count, 12 * count).is_err() {
            return Ok(());
        }
        let start = Instant::now(&rt)?;
        fill(&mut table, count, 1);
        let took = start.elapsed(&rt)?.as_micros();
        println!(rt; "{count} inserts, {took} us")?;
        time_look_ups(&rt, &table, count)?;
        time_steps(&rt, count, 100)?;
        time_steps(&rt, count, 1)?;
        let mut table = Memtable::new(rt.alloc(), Direction::Forward);
        let longest = longest_reserve(&rt, &mut table, count / 100)?;
        println!(rt; "longest reserve for 100, {longest} us")?;
        let Ok(tables) = eight_tables(rt.alloc(), count / 8) else {
            return Ok(());
        };
        let start = Instant::now(&rt)?;
        let Ok(steps) = walk(rt.alloc(), &tables) else {
            return Ok(());
        };
        let took = start.elapsed(&rt)?.as_micros();
        println!(rt; "merge of 8, {steps} steps, {took} us")?;
    }
    Ok(())
}
