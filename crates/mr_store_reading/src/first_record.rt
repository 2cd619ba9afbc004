//! The first record of a store's manifest, and of its binary log.
ghost use Rattle.std.specs.Prelude.{◌≡◌, ◌≤◌, ◌⊎◌, ◌∷◌, [], true, false, IfOk, IfErr, Ok, Err, nat_eq};
ghost use Rattle.std.specs.List.{common_prefix_len};
ghost use Rattle.mr_base.specs.Disk.{Tells, HasRisen, seen};
ghost use Rattle.mr_base.specs.Calls.{Same, Rises};
ghost use Rattle.mr_gate.specs.Log.{records_from, is_damaged_from};
ghost use Rattle.mr_stored.specs.Said.{first_fields, in_file, last_upto as last_place, is_begun};
ghost use Rattle.mr_store_reading.specs.ReadBack.{IsRefused, IsStop, OffendsIn, WalksRead, first_walked, judged_first};

use mr_base::{Disk, Stop};
use mr_gate::LogWalk;
use mr_lanes::first_difference;
use mr_manifest::{MANIFEST, first_record, write_edits};
use std::alloc::Global;

/// The binary log is this file.
const BINLOG: u64 = 1;

/// The bytes of a record in front of its body.
const RECORD_HEAD: u64 = 5;

/// Where the fields of a manifest's first record begin, and its end.
const FIRST_FIELDS: [usize; 12] = [0, 1, 5, 6, 14, 15, 23, 31, 32, 40, 41, 49];

/// The last of these places, which rise, that isn't past this one.
fn last_upto(at: usize, places: &[usize]) -> usize
    ensures { result ≡ last_place at 0 places.now }
{
    let mut last = 0;
    'looking: for place in places {
        if *place > at {
            return last;
        }
        last = *place;
    }
    last
}

/// Where the first field begins in which a body differs from that of a new folder's first record.
fn differs_at(body: &[u8], first: &[u8]) -> usize
    ensures place { result ≡ last_place (common_prefix_len nat_eq body.now first.now) 0 first_fields }
    ensures within { result ≤ 49 }
{
    last_upto(first_difference(body, first), &FIRST_FIELDS)
}

/// Judges the body of the manifest's first record. Takes memory.
fn judge(alloc: Global, body: &[u8]) -> Result<(), Stop>
    ensures same { IfOk result (λ u. judged_first (body.now ∷ []) ≡ Ok tt) }
    ensures differs { IfErr result (IsRefused (in_file 0 (judged_first (body.now ∷ [])))) }
{
    let first = write_edits(alloc, &first_record())?;
    let expected = first.as_slice();
    if body == expected {
        return Ok(());
    }
    let place = differs_at(body, expected) as u64;
    Err(Stop::Damaged {
        file: MANIFEST,
        at: RECORD_HEAD + place,
    })
}

/// Judges the manifest's first record, if there is one. Takes memory.
pub(crate) fn judge_first<D: Disk>(alloc: Global, disk: &mut D) -> Result<(), Stop>
    ensures rises { Rises 0 (D.disk disk.old) (D.disk disk.new) }
    ensures same { Tells (D.disk disk.old) → Same (D.disk disk.old) (D.disk disk.new) }
    ensures failed { result ≡ Err Stop.Disk → HasRisen (D.disk disk.old).faults (D.disk disk.new).faults }
    ensures answers { IfErr result IsStop }
    ensures reads { Tells (D.disk disk.old) → WalksRead 1 (first_walked (seen (D.disk disk.old) 0)) (D.disk disk.old) (D.disk disk.new) }
    ensures first { Tells (D.disk disk.old) → IfOk result (λ u. judged_first (records_from 0 (seen (D.disk disk.old) 0)) ≡ Ok tt) }
    ensures differs { Tells (D.disk disk.old) → is_damaged_from 0 (seen (D.disk disk.old) 0) ≡ false
        → IfErr result (OffendsIn 0 (judged_first (records_from 0 (seen (D.disk disk.old) 0)))) }
{
    let mut walk = LogWalk::begin(alloc, disk, MANIFEST, 0)?;
    match walk.next_record(alloc, disk)? {
        None => Ok(()),
        Some((_at, body)) => judge(alloc, body.as_slice()),
    }
}

/// Judges a binary log beside which the manifest has no record: it has none either, and no damage. Takes memory.
pub(crate) fn judge_begun<D: Disk>(alloc: Global, disk: &mut D) -> Result<(), Stop>
    ensures rises { Rises 0 (D.disk disk.old) (D.disk disk.new) }
    ensures same { Tells (D.disk disk.old) → Same (D.disk disk.old) (D.disk disk.new) }
    ensures failed { result ≡ Err Stop.Disk → HasRisen (D.disk disk.old).faults (D.disk disk.new).faults }
    ensures answers { IfErr result IsStop }
    ensures reads { Tells (D.disk disk.old) → WalksRead 1 (first_walked (seen (D.disk disk.old) 1)) (D.disk disk.old) (D.disk disk.new) }
    ensures none { Tells (D.disk disk.old) → IfOk result (λ u. is_begun (seen (D.disk disk.old) 1) ≡ false) }
    ensures begun { Tells (D.disk disk.old) → IfErr result (λ e. (e ≡ Stop.Disk) ⊎ ((e ≡ Stop.Memory)
        ⊎ ((is_begun (seen (D.disk disk.old) 1) ≡ true) × (e ≡ Stop.Damaged 1 0)))) }
{
    let mut walk = LogWalk::begin(alloc, disk, BINLOG, 0)?;
    match walk.next_record(alloc, disk) {
        Ok(None) => Ok(()),
        Ok(Some(_)) | Err(Stop::Damaged { .. }) => Err(Stop::Damaged {
            file: BINLOG,
            at: 0,
        }),
        Err(stop) => Err(stop),
    }
}
