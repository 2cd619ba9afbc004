//! The log of a store behind random steps and a crash, compared with the list beside the store.
ghost use Rattle.mr_kv_trials.specs.Silent.{IsReadyOver};

use crate::beside::{Beside, add_head, add_operation};
use crate::calls::settle;
use crate::fresh::LOG;
use crate::random::run;
use crate::untold::Untold;
use mr_base::{Disk, Memory, Stop};
use mr_engine_log::{Batched, LogReader};
use mr_memhost::{Choice, MemHost};
use mr_wal::Operation;
use std::alloc::Global;
use std::test::Fail;

/// The key of one byte, or 255.
fn key_of(operation: &Operation) -> u8 {
    match operation.key.as_slice() {
        [key] => *key,
        _ => 255,
    }
}

/// Adds a batch that counts.
fn add_batch(out: &mut Vec<u8>, batch: &Option<Batched>) -> Result<(), Memory> {
    if let Some(batch) = batch {
        let operations = batch.operations.as_slice();
        let commit = batch.commit.unwrap_or(0);
        add_head(out, commit, batch.sequence, operations.len())?;
        for operation in operations {
            let key = key_of(operation);
            add_operation(out, operation.family, key, operation.put.is_some())?;
        }
    }
    Ok(())
}

/// The batches that the log's records count.
fn read_all<D: Disk>(alloc: Global, disk: &mut D) -> Result<Vec<u8>, Stop> {
    let mut out = Vec::new(alloc);
    let mut reader = LogReader::begin(alloc, disk, LOG, 0)?;
    'reading: while let Some(counted) = reader.next(alloc, disk)? {
        add_batch(&mut out, &counted.committed)?;
        add_batch(&mut out, &counted.plain)?;
    }
    Ok(out)
}

/// The host behind random steps, all of which are settled.
fn settled(alloc: Global, beside: &mut Beside, seed: u64) -> Result<MemHost, Stop> {
    let mut disk = Untold::new(alloc);
    let mut kv = run(alloc, &mut disk, beside, seed)?;
    settle(alloc, &mut disk, &mut kv)?;
    Ok(disk.into_host())
}

/// Whether a crash leaves the batches of the list.
fn are_kept(alloc: Global, seed: u64, choice: Choice) -> Result<bool, Stop> {
    let mut beside = Beside::new(alloc);
    let host = settled(alloc, &mut beside, seed)?;
    let Ok(mut host) = host.crash(choice) else {
        return Err(Stop::Memory);
    };
    let kept = read_all(alloc, &mut host)?;
    Ok(kept.as_slice() == beside.counted.as_slice())
}

#[test]
fn a_crash_leaves_the_batches_of_the_list(rt: HostRuntime) -> Result<(), Fail> {
    let alloc = rt.alloc();
    assert_eq!(rt; are_kept(alloc, 1, Choice::Keep), Ok(true));
    assert_eq!(rt; are_kept(alloc, 2, Choice::Drop), Ok(true));
    Ok(())
}
