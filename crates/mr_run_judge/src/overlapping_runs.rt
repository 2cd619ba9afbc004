//! The judgement of all live runs, but for the place where an overlap is told.
ghost use Rattle.std.specs.Prelude.{◌≡◌, ◌*◌, length, [], IfOk, IfErr, OnOk, Ok};
ghost use Rattle.mr_base.specs.Disk.{Tells, seen};
ghost use Rattle.mr_base.specs.Calls.{Same, Counts, Rises};
ghost use Rattle.mr_stored.specs.Offences.{structure_judged, first_overlap as the_first_overlap};
ghost use Rattle.mr_run_judge.specs.Judged.{lengths, JudgeStops};

use crate::listing::in_list_order;
use crate::opening::open_all;
use crate::overlaps::first_overlap;
use mr_base::{Disk, Stop};
use mr_manifest::LiveRun;
use std::alloc::Global;

/// The file of the first run that overlaps one which was added before it, where the structure of all is sound; or the first offence of
/// a structure. Nothing is written. Takes memory.
pub fn overlapping<D: Disk>(
    alloc: Global,
    disk: &mut D,
    runs: &[LiveRun],
) -> Result<Option<u64>, Stop>
    ensures rises { Rises 0 (D.disk disk.old) (D.disk disk.new) }
    ensures counts { OnOk result (Counts (2 * length runs.now) (lengths runs.now) 0 (D.disk disk.old) (D.disk disk.new)) }
    ensures same { Tells (D.disk disk.old) → Same (D.disk disk.old) (D.disk disk.new) }
    ensures stops { IfErr result (JudgeStops (λ image. structure_judged image runs.now) (D.disk disk.old) (D.disk disk.new)) }
    ensures sound { Tells (D.disk disk.old) → OnOk result (structure_judged (seen (D.disk disk.old)) runs.now ≡ Ok tt) }
    ensures first { Tells (D.disk disk.old) → IfOk result (λ file. file ≡ the_first_overlap (seen (D.disk disk.old)) [] runs.now) }
{
    let opened = match open_all(alloc, disk, runs) {
        Ok(opened) => opened,
        Err(stop) => return Err(stop),
    };
    match in_list_order(alloc, opened.as_slice(), runs) {
        Ok(ends) => Ok(first_overlap(ends.as_slice())),
        Err(_) => Err(Stop::Memory),
    }
}
