//! How long a run takes to be written, beside a bare loop that writes the same bytes, and then to be read: random look-ups of keys that it
//! has, warm and cold, and a walk over all of it. `mr_run_bench 10000 100000` does so in memory, where any other word stands for
//! 1,000,000 versions; `mr_run_bench disk` with as many in the folder `runs` of the current one. Keys have 16 bytes and values 100.
#![tactic(auto)]

mod sink;
mod work;

use crate::sink::Sink;
use crate::work::{key_of, look_up, walk, write_run};
use mr_base::{Direction, Disk, DiskFault, Memory};
use mr_block_cache::BlockCache;
use mr_edge::FolderHost;
use mr_run_open::Run;
use std::alloc::Global;
use std::time::Instant;
use std::{env, io};

/// So many of the first keys stand in fewer blocks than the cache holds.
const NEAR: u32 = 20_000;

/// The same bytes of entries, one behind the other.
fn write_bare(disk: &mut Sink, count: u32) -> Result<(), Memory> {
    let value = [7u8; 100];
    for number in 0..count {
        disk.bytes.extend_from_slice(&[0, 0, 0, 16])?;
        disk.bytes.extend_from_slice(&key_of(number))?;
        disk.bytes
            .extend_from_slice(&[0, 0, 0, 0, 0, 0, 0, 1, 1, 0, 0, 0, 100])?;
        disk.bytes.extend_from_slice(&value)?;
    }
    Ok(())
}

fn new_sink(alloc: Global) -> Sink {
    Sink {
        bytes: Vec::new(alloc),
        faults: 0,
        syncs: 0,
    }
}

/// Writes bytes to a file in pieces of 65,536, and syncs once.
fn write_pieces(host: &mut FolderHost<&HostRuntime>, bytes: &[u8]) -> Result<(), DiskFault> {
    let mut at = 0u64;
    host.cut(17, 0)?;
    for piece in bytes.chunks(65_536) {
        host.write_at(17, at, piece)?;
        at = at.wrapping_add(65_536);
    }
    host.sync(17)
}

/// Writes a run, opens it, looks keys up and walks over it.
fn time_run<D: Disk>(rt: &HostRuntime, disk: &mut D, count: u32) -> io::Result<()> {
    let start = Instant::now(rt)?;
    let info = write_run(rt.alloc(), disk, count);
    let took = start.elapsed(rt)?.as_micros();
    let Ok(info) = info else {
        return Ok(());
    };
    println!(rt;
        "a run of {} bytes and {} versions, {took} us",
        info.length, info.entries
    )?;
    let start = Instant::now(rt)?;
    let opened = Run::open(rt.alloc(), disk, &info, Direction::Forward);
    let took = start.elapsed(rt)?.as_micros();
    let Ok(run) = opened else {
        return Ok(());
    };
    println!(rt; "opened with {} blocks, {took} us", run.block_count())?;
    time_look_ups(rt, disk, &run, count)?;
    let start = Instant::now(rt)?;
    let bytes = walk(rt.alloc(), disk, &run);
    let took = start.elapsed(rt)?.as_micros();
    println!(rt;
        "a walk over {} bytes of keys and values, {took} us",
        bytes.unwrap_or(0)
    )
}

/// Looks keys up: in blocks that the cache then holds, in these again, and in all.
fn time_look_ups<D: Disk>(rt: &HostRuntime, disk: &mut D, run: &Run, count: u32) -> io::Result<()> {
    let Ok(mut cache) = BlockCache::new(rt.alloc()) else {
        return Ok(());
    };
    for (what, among) in [("near, first", NEAR), ("near, again", NEAR), ("all", count)] {
        let start = Instant::now(rt)?;
        let found = look_up(rt.alloc(), disk, run, &mut cache, among);
        let took = start.elapsed(rt)?.as_micros();
        println!(rt; "{what}: {} look-ups found, {took} us", found.unwrap_or(0))?;
    }
    Ok(())
}

/// The bytes of so many entries, which are timed.
fn time_bare(rt: &HostRuntime, bare: &mut Sink, count: u32) -> io::Result<()> {
    let start = Instant::now(rt)?;
    let done = write_bare(bare, count);
    let took = start.elapsed(rt)?.as_micros();
    if done.is_err() {
        return Ok(());
    }
    println!(rt; "{} bytes of entries alone, {took} us", bare.bytes.len())
}

fn time_in_memory(rt: &HostRuntime, count: u32) -> io::Result<()> {
    let mut bare = new_sink(rt.alloc());
    time_bare(rt, &mut bare, count)?;
    let mut disk = new_sink(rt.alloc());
    time_run(rt, &mut disk, count)
}

fn time_on_disk(rt: &HostRuntime, count: u32) -> io::Result<()> {
    let Ok(mut host) = FolderHost::new(rt, rt.alloc(), "runs") else {
        return Ok(());
    };
    let mut bare = new_sink(rt.alloc());
    time_bare(rt, &mut bare, count)?;
    let start = Instant::now(rt)?;
    let done = write_pieces(&mut host, &bare.bytes);
    let took = start.elapsed(rt)?.as_micros();
    if done.is_ok() {
        println!(rt; "written in pieces, {took} us")?;
    }
    time_run(rt, &mut host, count)
}

fn main(rt: HostRuntime) -> io::Result<()> {
    for word in env::args(&rt)?.skip(1) {
        match word.as_str() {
            "10000" => time_in_memory(&rt, 10_000)?,
            "100000" => time_in_memory(&rt, 100_000)?,
            "disk" => time_on_disk(&rt, 1_000_000)?,
            _ => time_in_memory(&rt, 1_000_000)?,
        }
    }
    Ok(())
}
