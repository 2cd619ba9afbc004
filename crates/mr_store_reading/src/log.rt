//! The records of an engine log, with their batches.
ghost use Rattle.std.specs.Prelude.{◌≡◌, ◌⊎◌, ◌++◌, ℕ, IfOk, IfErr, OnOk, Ok, Err};
ghost use Rattle.mr_base.specs.Disk.{Tells, HasRisen, seen};
ghost use Rattle.mr_base.specs.Calls.{Same, Rises};
ghost use Rattle.mr_engine_log.specs.Logged.{log_of, if_some, counted as counting};
ghost use Rattle.mr_store_reading.specs.ReadBack.{IsStop, OffendsIn, IsLogRead, WalksRead, walked};

use mr_base::{Disk, Stop};
use mr_engine_log::{Batched, Counted, Left, LogReader};
use std::alloc::Global;

/// Adds a batch, if there is one.
fn add_batch(batches: &mut Vec<Batched>, batch: Option<Batched>) -> Result<(), Stop>
    ensures added { OnOk result (batches.new.items ≡ batches.old.items ++ if_some batch) }
    ensures memory { IfErr result (λ e. e ≡ Stop.Memory) }
{
    if let Some(batch) = batch {
        batches.push(batch)?;
    }
    Ok(())
}

/// Adds what a record makes count.
fn add_counted(batches: &mut Vec<Batched>, counted: Counted) -> Result<(), Stop>
    ensures added { OnOk result (batches.new.items ≡ batches.old.items ++ counting counted) }
    ensures memory { IfErr result (λ e. e ≡ Stop.Memory) }
{
    add_batch(batches, counted.committed)?;
    add_batch(batches, counted.plain)
}

/// Reads the engine log in a file, before whose first record this was the last sequence number: what its records leave, and the batches that
/// count, in order. Takes memory.
pub(crate) fn read_log<D: Disk>(
    alloc: Global,
    disk: &mut D,
    file: u64,
    base: u64,
) -> Result<(Left, Vec<Batched>), Stop>
    ensures rises { Rises 0 (D.disk disk.old) (D.disk disk.new) }
    ensures same { Tells (D.disk disk.old) → Same (D.disk disk.old) (D.disk disk.new) }
    ensures failed { result ≡ Err Stop.Disk → HasRisen (D.disk disk.old).faults (D.disk disk.new).faults }
    ensures answers { IfErr result IsStop }
    ensures reads { Tells (D.disk disk.old) → WalksRead 1 (walked (seen (D.disk disk.old) file)) (D.disk disk.old) (D.disk disk.new) }
    ensures read { Tells (D.disk disk.old) → IfOk result (λ r. IsLogRead base (seen (D.disk disk.old) file) r.0 r.1.items) }
    ensures damaged { Tells (D.disk disk.old) → IfErr result (OffendsIn file (log_of base (seen (D.disk disk.old) file))) }
{
    let mut reader = LogReader::begin(alloc, disk, file, base)?;
    let mut batches = Vec::new(alloc);
    'reading: while let Some(counted) = reader.next(alloc, disk)? {
        add_counted(&mut batches, counted)?;
    }
    Ok((reader.finish(), batches))
}
