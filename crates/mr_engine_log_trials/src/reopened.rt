//! Logs that are read to their end and opened.
ghost use Rattle.std.specs.Prelude.{◌≡◌, IfOk, OnOk};
ghost use Rattle.mr_base.specs.Disk.{Tells, file_of};
ghost use Rattle.mr_base.specs.Calls.{Same, Rises};
ghost use Rattle.mr_engine_log.specs.Standing.{IsReady, IsLeftBy};

use crate::beside::END;
use mr_base::{Disk, Memory, Stop};
use mr_engine_log::{Batched, EngineLog, Left, LogReader, Prepared};
use mr_wal::Batch;
use std::alloc::Global;

/// The file of the log.
pub const LOG: u64 = 16;

/// A number below 255, or 255.
fn low(number: u64) -> u8 {
    number.min(255) as u8
}

/// The key of a batch of one operation with a key of one byte.
fn key_in(batch: &Batch) -> u8 {
    match batch.as_slice() {
        [operation] => match operation.key.as_slice() {
            [key] => *key,
            _ => 255,
        },
        _ => 255,
    }
}

fn add_batch(out: &mut Vec<u8>, batch: &Option<Batched>) -> Result<(), Memory> {
    if let Some(batch) = batch {
        let commit = low(batch.commit.unwrap_or(0));
        let key = key_in(&batch.operations);
        out.extend_from_slice(&[commit, low(batch.sequence), key])?;
    }
    Ok(())
}

fn add_pending(out: &mut Vec<u8>, pending: &Option<Prepared>) -> Result<(), Memory> {
    out.extend_from_slice(&[END])?;
    if let Some(prepared) = pending {
        let key = key_in(&prepared.operations);
        out.extend_from_slice(&[low(prepared.commit), low(prepared.sequence), key])?;
    }
    Ok(())
}

/// What the log's records leave; the batches that count are added to the bytes.
fn read_all<D: Disk>(alloc: Global, disk: &mut D, out: &mut Vec<u8>) -> Result<Left, Stop>
    ensures rises { Rises 1 (D.disk disk.old) (D.disk disk.new) }
    ensures same { Tells (D.disk disk.old) → Same (D.disk disk.old) (D.disk disk.new) }
    ensures left { Tells (D.disk disk.old) → IfOk result (IsLeftBy 0 (file_of (D.disk disk.old) 16).bytes) }
{
    let mut reader = LogReader::begin(alloc, disk, LOG, 0)?;
    'reading: while let Some(counted) = reader.next(alloc, disk)? {
        add_batch(out, &counted.committed)?;
        add_batch(out, &counted.plain)?;
    }
    Ok(reader.finish())
}

/// Opens the log as it is left, and adds what that is to the bytes.
pub fn open_again<D: Disk>(
    alloc: Global,
    disk: &mut D,
    out: &mut Vec<u8>,
) -> Result<EngineLog, Stop>
    ensures { IfOk result (λ log. IsReady log (D.disk disk.new)) }
{
    let left = read_all(alloc, disk, out)?;
    add_pending(out, &left.pending)?;
    out.extend_from_slice(&[low(left.last)])?;
    EngineLog::open(disk, LOG, 0, left)
}
