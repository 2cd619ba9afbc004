//! Where the manifest adds a run.
ghost use Rattle.std.specs.Prelude.{◌≡◌, if◌then◌else◌, IfOk, IfErr, Result};
ghost use Rattle.mr_base.specs.Disk.{Tells, Image, file_of};
ghost use Rattle.mr_base.specs.Calls.{Same, Rises};
ghost use Rattle.mr_manifest.specs.Manifest.{manifest_of};
ghost use Rattle.mr_stored.specs.Said.{Place};
ghost use Rattle.mr_stored.specs.Offences.{adds as does_add, add as do_add, added_in as the_place};
ghost use Rattle.mr_run_judge.specs.Judged.{JudgeStops};

use mr_base::{DefAnswer, Disk, Stop};
use mr_gate::LogWalk;
use mr_manifest::{Edit, read_edits};
use std::alloc::Global;

fn adds(file: u64, edit: &Edit) -> bool
    ensures { result ≡ does_add file edit.now }
{
    match *edit {
        Edit::RunAdded { file: added, .. } => added == file,
        _ => false,
    }
}

fn add(file: u64, edits: &[Edit]) -> bool
    ensures { result ≡ do_add file edits.now }
{
    'adding: for i in 0..edits.len() {
        if adds(file, &edits[i]) {
            return true;
        }
    }
    false
}

/// This record's place where it adds a run in the file, else the one before.
fn later(file: u64, edits: &[Edit], at: u64, place: u64) -> u64
    ensures { result ≡ (if do_add file edits.now then at else place) }
{
    if add(file, edits) { at } else { place }
}

/// The place of the manifest's last record that adds a run in this file, 0 where the manifest can't be read. Takes memory.
pub fn added_in<D: Disk>(alloc: Global, disk: &mut D, file: u64) -> Result<u64, Stop>
    ensures rises { Rises 0 (D.disk disk.old) (D.disk disk.new) }
    ensures same { Tells (D.disk disk.old) → Same (D.disk disk.old) (D.disk disk.new) }
    ensures place { Tells (D.disk disk.old) → IfOk result (λ at. at ≡ the_place file (manifest_of (file_of (D.disk disk.old) 0).bytes)) }
    ensures stops { (judged : Image → Result (Unit {0}) Place) → IfErr result (JudgeStops judged (D.disk disk.old) (D.disk disk.new)) }
{
    let mut walk = match LogWalk::begin(alloc, disk, 0, 0) {
        Ok(walk) => walk,
        Err(stop) => return Err(stop),
    };
    let mut place = 0;
    'walking: loop {
        match walk.next_record(alloc, disk) {
            Ok(Some((at, body))) => match read_edits(alloc, body.as_slice()) {
                Ok(edits) => place = later(file, edits.as_slice(), at, place),
                Err(DefAnswer::Memory) => return Err(Stop::Memory),
                Err(DefAnswer::Malformed(_)) => return Ok(0),
            },
            Ok(None) => return Ok(place),
            Err(Stop::Damaged { .. }) => return Ok(0),
            Err(stop) => return Err(stop),
        }
    }
}
