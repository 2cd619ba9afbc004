//! What the files of a store say, read from them.
ghost use Rattle.std.specs.Prelude.{◌≡◌, ◌+◌, IfOk, IfErr, Ok, Err};
ghost use Rattle.mr_base.specs.Disk.{Tells, HasRisen, seen};
ghost use Rattle.mr_base.specs.Calls.{Same, Rises};
ghost use Rattle.mr_stored.specs.Said.{manifest_sum, said_by, said as saying};
ghost use Rattle.mr_store_reading.specs.ReadBack.{IsStop, Offends, IsReadBy, IsReadFrom, ReadsFrom, WalksRead, first_walked, walked, walked_by};

use crate::first_record::{judge_begun, judge_first};
use crate::log::read_log;
use mr_base::{Disk, Stop};
use mr_engine_log::{Batched, Left};
use mr_manifest::{Live, Sum, read_manifest};
use std::alloc::Global;

/// What the manifest and the live log say: what is live, what the log's records leave, and its batches that count, in order.
#[derive(Drop)]
pub struct Reading {
    pub live: Live,
    pub left: Left,
    pub batches: Vec<Batched>,
}

/// What the records of the manifest add up to, of which the first one is that of a new folder.
fn read_sum<D: Disk>(alloc: Global, disk: &mut D) -> Result<Sum, Stop>
    ensures rises { Rises 0 (D.disk disk.old) (D.disk disk.new) }
    ensures same { Tells (D.disk disk.old) → Same (D.disk disk.old) (D.disk disk.new) }
    ensures failed { result ≡ Err Stop.Disk → HasRisen (D.disk disk.old).faults (D.disk disk.new).faults }
    ensures answers { IfErr result IsStop }
    ensures reads { Tells (D.disk disk.old) → WalksRead 2 (walked (seen (D.disk disk.old) 0) + first_walked (seen (D.disk disk.old) 0)) (D.disk disk.old) (D.disk disk.new) }
    ensures read { Tells (D.disk disk.old) → IfOk result (λ s. manifest_sum (seen (D.disk disk.old)) ≡ Ok s) }
    ensures damaged { Tells (D.disk disk.old) → IfErr result (Offends (manifest_sum (seen (D.disk disk.old)))) }
{
    let sum = read_manifest(alloc, disk)?;
    judge_first(alloc, disk)?;
    Ok(sum)
}

/// What the files say where the manifest's records add up to this.
fn read_by<D: Disk>(alloc: Global, disk: &mut D, sum: Sum) -> Result<Option<Reading>, Stop>
    ensures rises { Rises 0 (D.disk disk.old) (D.disk disk.new) }
    ensures same { Tells (D.disk disk.old) → Same (D.disk disk.old) (D.disk disk.new) }
    ensures failed { result ≡ Err Stop.Disk → HasRisen (D.disk disk.old).faults (D.disk disk.new).faults }
    ensures answers { IfErr result IsStop }
    ensures reads { Tells (D.disk disk.old) → WalksRead 1 (walked_by (seen (D.disk disk.old)) sum) (D.disk disk.old) (D.disk disk.new) }
    ensures read { Tells (D.disk disk.old) → IfOk result (IsReadBy (seen (D.disk disk.old)) sum) }
    ensures damaged { Tells (D.disk disk.old) → IfErr result (Offends (said_by (seen (D.disk disk.old)) sum)) }
{
    if sum.at.is_none() {
        judge_begun(alloc, disk)?;
        return Ok(None);
    }
    let live = sum.live;
    let (left, batches) = read_log(alloc, disk, live.log, live.last_sequence)?;
    Ok(Some(Reading {
        live,
        left,
        batches,
    }))
}

/// Reads the manifest, its first record's text, and the live log, in this order, and tells the first offence with its file and place.
/// Nothing is written. None is an empty folder: its manifest has no record, and file 1 has none and no damage either. Takes memory.
pub fn read_said<D: Disk>(alloc: Global, disk: &mut D) -> Result<Option<Reading>, Stop>
    ensures rises { Rises 0 (D.disk disk.old) (D.disk disk.new) }
    ensures same { Tells (D.disk disk.old) → Same (D.disk disk.old) (D.disk disk.new) }
    ensures failed { result ≡ Err Stop.Disk → HasRisen (D.disk disk.old).faults (D.disk disk.new).faults }
    ensures answers { IfErr result IsStop }
    // Its cost goes by the bytes of the manifest's and the live log's records, and not by their number.
    ensures reads { Tells (D.disk disk.old) → ReadsFrom (seen (D.disk disk.old)) (D.disk disk.old) (D.disk disk.new) }
    ensures said { Tells (D.disk disk.old) → IfOk result (IsReadFrom (seen (D.disk disk.old))) }
    ensures damaged { Tells (D.disk disk.old) → IfErr result (Offends (saying (seen (D.disk disk.old)))) }
{
    let sum = read_sum(alloc, disk)?;
    read_by(alloc, disk, sum)
}
