//! The runs opened one after the other.
ghost use Rattle.std.specs.Prelude.{◌≡◌, ◌*◌, length, map, [], IfOk, IfErr, OnOk, Ok};
ghost use Rattle.std.specs.List.{AllByRecursion};
ghost use Rattle.mr_base.specs.Disk.{Tells, seen};
ghost use Rattle.mr_base.specs.Calls.{Same, Counts, Rises};
ghost use Rattle.mr_iter.specs.Versions.{in_order};
ghost use Rattle.mr_run_open.specs.Runs.{OpenStops};
ghost use Rattle.mr_stored.specs.Offences.{run_cmp, structures, structure_judged};
ghost use Rattle.mr_run_judge.specs.Judged.{lengths, IsSound, HasEnds, JudgeStops};

use crate::ends::{Ends, ends_of};
use crate::order::in_judging_order;
use mr_base::{Direction, Disk, Stop};
use mr_iter::RunInfo;
use mr_manifest::LiveRun;
use mr_run_open::Run;
use std::alloc::Global;

/// The ends of a run, or the first offence of its structure. Takes memory.
fn open_run<D: Disk>(alloc: Global, disk: &mut D, run: LiveRun) -> Result<Ends, Stop>
    ensures counts { Counts 2 run.length 0 (D.disk disk.old) (D.disk disk.new) }
    ensures same { Tells (D.disk disk.old) → Same (D.disk disk.old) (D.disk disk.new) }
    ensures stops { IfErr result (OpenStops run.file run.length run.entries (D.disk disk.old) (D.disk disk.new)) }
    ensures run { IfOk result (λ e. e.run ≡ run) }
    ensures sound { Tells (D.disk disk.old) → OnOk result (IsSound (seen (D.disk disk.old)) run) }
    ensures ends { Tells (D.disk disk.old) → IfOk result (HasEnds (seen (D.disk disk.old))) }
{
    let info = RunInfo {
        file: run.file,
        length: run.length,
        entries: run.entries,
    };
    match Run::open(alloc, disk, &info, Direction::Forward) {
        Ok(opened) => match ends_of(alloc, run, &opened) {
            Ok(ends) => Ok(ends),
            Err(_) => Err(Stop::Memory),
        },
        Err(stop) => Err(stop),
    }
}

/// The ends of these runs, which are opened one after the other, or the first offence of their structures. Takes memory.
pub fn open_each<D: Disk>(alloc: Global, disk: &mut D, runs: &[LiveRun]) -> Result<Vec<Ends>, Stop>
    ensures rises { Rises 0 (D.disk disk.old) (D.disk disk.new) }
    ensures counts { OnOk result (Counts (2 * length runs.now) (lengths runs.now) 0 (D.disk disk.old) (D.disk disk.new)) }
    ensures same { Tells (D.disk disk.old) → Same (D.disk disk.old) (D.disk disk.new) }
    ensures stops { IfErr result (JudgeStops (λ image. structures image runs.now) (D.disk disk.old) (D.disk disk.new)) }
    ensures runs { IfOk result (λ es. map (λ e. e.run) es.items ≡ runs.now) }
    ensures sound { Tells (D.disk disk.old) → OnOk result (structures (seen (D.disk disk.old)) runs.now ≡ Ok tt) }
    ensures ends { Tells (D.disk disk.old) → IfOk result (λ es. AllByRecursion (HasEnds (seen (D.disk disk.old))) es.items) }
{
    let mut opened = Vec::new(alloc);
    'opening: for i in 0..runs.len() {
        let ends = match open_run(alloc, disk, runs[i]) {
            Ok(ends) => ends,
            Err(stop) => return Err(stop),
        };
        match opened.push(ends) {
            Ok(()) => {}
            Err(_) => return Err(Stop::Memory),
        }
    }
    Ok(opened)
}

/// The ends of all runs, which are opened in the order in which they are judged, or the first offence of their structures. Takes
/// memory.
pub fn open_all<D: Disk>(alloc: Global, disk: &mut D, runs: &[LiveRun]) -> Result<Vec<Ends>, Stop>
    ensures rises { Rises 0 (D.disk disk.old) (D.disk disk.new) }
    ensures counts { OnOk result (Counts (2 * length runs.now) (lengths runs.now) 0 (D.disk disk.old) (D.disk disk.new)) }
    ensures same { Tells (D.disk disk.old) → Same (D.disk disk.old) (D.disk disk.new) }
    ensures stops { IfErr result (JudgeStops (λ image. structure_judged image runs.now) (D.disk disk.old) (D.disk disk.new)) }
    ensures runs { IfOk result (λ es. map (λ e. e.run) es.items ≡ in_order run_cmp runs.now) }
    ensures sound { Tells (D.disk disk.old) → OnOk result (structure_judged (seen (D.disk disk.old)) runs.now ≡ Ok tt) }
    ensures ends { Tells (D.disk disk.old) → IfOk result (λ es. AllByRecursion (HasEnds (seen (D.disk disk.old))) es.items) }
{
    match in_judging_order(alloc, runs) {
        Ok(sorted) => open_each(alloc, disk, sorted.as_slice()),
        Err(_) => Err(Stop::Memory),
    }
}
