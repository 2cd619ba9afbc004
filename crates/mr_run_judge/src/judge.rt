//! The judgement of all live runs.
ghost use Rattle.std.specs.Prelude.{◌≡◌, ◌*◌, ◌⊎◌, ℕ, length, IfOk, IfErr, OnOk, Ok, Err};
ghost use Rattle.mr_base.specs.Disk.{Tells, HasRisen, seen};
ghost use Rattle.mr_base.specs.Calls.{Same, Counts, Rises};
ghost use Rattle.mr_stored.specs.Said.{Place};
ghost use Rattle.mr_stored.specs.Offences.{runs_judged};
ghost use Rattle.mr_run_judge.specs.Judged.{lengths, JudgeStops};

use crate::overlapping_runs::overlapping;
use crate::place::added_in;
use mr_base::{Disk, Stop};
use mr_manifest::{LiveRun, MANIFEST};
use std::alloc::Global;

/// As `judge_runs`, with each stop and its cause.
fn judged<D: Disk>(alloc: Global, disk: &mut D, runs: &[LiveRun]) -> Result<(), Stop>
    ensures rises { Rises 0 (D.disk disk.old) (D.disk disk.new) }
    ensures same { Tells (D.disk disk.old) → Same (D.disk disk.old) (D.disk disk.new) }
    ensures sound { Tells (D.disk disk.old) → OnOk result (runs_judged (seen (D.disk disk.old)) runs.now ≡ Ok tt) }
    ensures stops { IfErr result (JudgeStops (λ image. runs_judged image runs.now) (D.disk disk.old) (D.disk disk.new)) }
    ensures counts { OnOk result (Counts (2 * length runs.now) (lengths runs.now) 0 (D.disk disk.old) (D.disk disk.new)) }
{
    match overlapping(alloc, disk, runs) {
        Ok(None) => Ok(()),
        Ok(Some(file)) => match added_in(alloc, disk, file) {
            Ok(at) => Err(Stop::Damaged { file: MANIFEST, at }),
            Err(stop) => Err(stop),
        },
        Err(stop) => Err(stop),
    }
}

/// Judges the live runs: the structure of each file, in the order of family, level and file; then whether runs of a level from 1 on
/// overlap, by the bytewise least and greatest of their first and last keys. The first offence is told with its file and place; that of
/// an overlap is the manifest's last record that adds the run which was added later. Nothing is written. Takes memory.
pub fn judge_runs<D: Disk>(alloc: Global, disk: &mut D, runs: &[LiveRun]) -> Result<(), Stop>
    ensures rises { Rises 0 (D.disk disk.old) (D.disk disk.new) }
    ensures same { Tells (D.disk disk.old) → Same (D.disk disk.old) (D.disk disk.new) }
    ensures failed { result ≡ Err Stop.Disk → HasRisen (D.disk disk.old).faults (D.disk disk.new).faults }
    ensures answers { IfErr result (λ e. (e ≡ Stop.Disk) ⊎ ((e ≡ Stop.Memory) ⊎ ((file at : ℕ) × (e ≡ Stop.Damaged file at)))) }
    ensures sound { Tells (D.disk disk.old) → OnOk result (runs_judged (seen (D.disk disk.old)) runs.now ≡ Ok tt) }
    ensures damaged { Tells (D.disk disk.old) → IfErr result (λ e. (e ≡ Stop.Disk) ⊎ ((e ≡ Stop.Memory) ⊎ ((place : Place) × (runs_judged (seen (D.disk disk.old)) runs.now ≡ Err place) × (e ≡ Stop.Damaged place.0 place.1)))) }
    ensures counts { OnOk result (Counts (2 * length runs.now) (lengths runs.now) 0 (D.disk disk.old) (D.disk disk.new)) }
{
    judged(alloc, disk, runs)
}
