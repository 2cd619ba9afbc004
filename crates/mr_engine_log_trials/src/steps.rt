//! The steps of a script on an engine log.
ghost use Rattle.std.specs.Prelude.{◌≡◌, ◌≤◌, ◌^◌, OnOk, IfOk};
ghost use Rattle.mr_engine_log.specs.Standing.{IsReady};

use crate::beside::{commit_of, key_of};
use crate::reopened::{LOG, open_again};
use mr_base::{Blob, Disk, Memory, Stop};
use mr_engine_log::EngineLog;
use mr_wal::{Batch, Operation, plain_length, prepare_length};
use sqlite_items::Items;
use std::alloc::Global;

/// No record here is longer.
const LONG: u64 = 1000;

/// A batch of one put, whose key is that of a sequence number.
pub fn batch_of(alloc: Global, sequence: u8) -> Result<Batch, Memory> {
    let key = Blob::from_slice(alloc, &[key_of(sequence)])?;
    let value = Blob::from_slice(alloc, &[sequence])?;
    let mut batch = Items::new(alloc);
    batch.push(Operation {
        family: 1,
        key,
        put: Some(value),
    })?;
    Ok(batch)
}

/// The next sequence number, below 100.
fn next_of(log: &EngineLog) -> u8 {
    log.last().saturating_add(1).min(100) as u8
}

pub fn write<D: Disk>(alloc: Global, disk: &mut D, log: &mut EngineLog) -> Result<(), Stop>
    requires { IsReady log.old (D.disk disk.old) }
    ensures { OnOk result (IsReady log.new (D.disk disk.new)) }
{
    let batch = batch_of(alloc, next_of(log))?;
    if log.pending().is_some() || plain_length(&batch) > LONG {
        return Ok(());
    }
    let _batched = log.write(alloc, disk, batch)?;
    Ok(())
}

fn prepare<D: Disk>(alloc: Global, disk: &mut D, log: &mut EngineLog) -> Result<(), Stop>
    requires { IsReady log.old (D.disk disk.old) }
    ensures { OnOk result (IsReady log.new (D.disk disk.new)) }
{
    let sequence = next_of(log);
    let batch = batch_of(alloc, sequence)?;
    if log.pending().is_some() || prepare_length(&batch) > LONG {
        return Ok(());
    }
    log.prepare(alloc, disk, commit_of(sequence) as u64, batch)
}

fn settle<D: Disk>(alloc: Global, disk: &mut D, log: &mut EngineLog) -> Result<(), Stop>
    requires { IsReady log.old (D.disk disk.old) }
    ensures { OnOk result (IsReady log.new (D.disk disk.new)) }
{
    if log.pending().is_some() {
        return Ok(());
    }
    log.settle(alloc, disk)
}

fn decide<D: Disk>(disk: &D, log: &mut EngineLog)
    requires { IsReady log.old (D.disk disk.now) }
    ensures { IsReady log.new (D.disk disk.now) }
{
    if log.pending().is_some() {
        let _decided = log.decide();
    }
}

fn abandon<D: Disk>(disk: &D, log: &mut EngineLog)
    requires { IsReady log.old (D.disk disk.now) }
    ensures { IsReady log.new (D.disk disk.now) }
{
    if log.pending().is_some() {
        log.abandon();
    }
}

fn reopen<D: Disk>(alloc: Global, disk: &mut D, log: &mut EngineLog) -> Result<(), Stop>
    ensures { OnOk result (IsReady log.new (D.disk disk.new)) }
{
    let mut out = Vec::new(alloc);
    *log = open_again(alloc, disk, &mut out)?;
    Ok(())
}

fn step<D: Disk>(alloc: Global, disk: &mut D, log: &mut EngineLog, step: u8) -> Result<(), Stop>
    requires { IsReady log.old (D.disk disk.old) }
    ensures { OnOk result (IsReady log.new (D.disk disk.new)) }
{
    match step {
        b'w' => write(alloc, disk, log),
        b'p' => prepare(alloc, disk, log),
        b's' => settle(alloc, disk, log),
        b'r' => reopen(alloc, disk, log),
        b'c' => {
            decide(disk, log);
            Ok(())
        }
        b'a' => {
            abandon(disk, log);
            Ok(())
        }
        _ => Ok(()),
    }
}

/// How many steps were done on a new log.
pub fn run<D: Disk>(alloc: Global, disk: &mut D, script: &[u8]) -> usize {
    let Ok(mut log) = EngineLog::create(disk, LOG, 0) else {
        return 0;
    };
    'running: for (done, next) in script.iter().enumerate() {
        if step(alloc, disk, &mut log, *next).is_err() {
            return done;
        }
    }
    script.len()
}
