//! The live runs of family 0.
ghost use Rattle.std.specs.Prelude.{◌≡◌, ◌≤◌, ◌∷◌, List, IfErr, OnOk};
ghost use Rattle.std.specs.List.{AllByRecursion};
ghost use Rattle.mr_base.specs.Disk.{Tells, seen};
ghost use Rattle.mr_base.specs.Calls.{Rises, Same};
ghost use Rattle.mr_base.specs.declared.stop.Direction.TheVariants.{Forward};
ghost use Rattle.mr_run_open.specs.Runs.{opened, OpenStops};
ghost use Rattle.mr_levels.specs.Levels.{with_run};
ghost use Rattle.mr_manifest.specs.declared.live.LiveRun.{LiveRun};
ghost use Rattle.mr_family.specs.Family.{direction as direction_of};
ghost use Rattle.mr_stored.specs.Lists.{info_of, index_in, runs_of, with_runs};
ghost use Rattle.mr_store_names.specs.Stopping.{SystemStops, RunStops};

use mr_base::{Disk, Stop};
use mr_family::Family;
use mr_iter::RunInfo;
use mr_manifest::LiveRun;
use std::alloc::Global;

/// Opens a run of family 0. Takes memory.
fn open_own<D: Disk>(
    alloc: Global,
    disk: &mut D,
    family: &mut Family,
    run: &LiveRun,
) -> Result<(), Stop>
    requires level { run.now.level ≤ 4 }
    requires forward { direction_of family.old ≡ Forward }
    ensures forward { direction_of family.new ≡ Forward }
    ensures opened { Tells (D.disk disk.old) → OnOk result (family.new.levels ≡ with_run run.now.level (opened (info_of run.now) Forward (index_in (seen (D.disk disk.old)) run.now)) family.old.levels) }
    ensures memtable { family.new.memtable ≡ family.old.memtable }
    ensures cached { family.new.cached ≡ family.old.cached }
    ensures rises { Rises 0 (D.disk disk.old) (D.disk disk.new) }
    ensures same { Tells (D.disk disk.old) → Same (D.disk disk.old) (D.disk disk.new) }
    ensures stops { IfErr result (OpenStops run.now.file run.now.length run.now.entries (D.disk disk.old) (D.disk disk.new)) }
{
    let info = RunInfo {
        file: run.file,
        length: run.length,
        entries: run.entries,
    };
    match family.open_run(alloc, disk, run.level, &info) {
        Ok(()) => Ok(()),
        Err(stop) => Err(stop),
    }
}

/// Opens a run, where it is one of family 0. Takes memory.
fn open_one<D: Disk>(
    alloc: Global,
    disk: &mut D,
    family: &mut Family,
    run: &LiveRun,
) -> Result<(), Stop>
    requires level { run.now.level ≤ 4 }
    requires forward { direction_of family.old ≡ Forward }
    ensures forward { direction_of family.new ≡ Forward }
    ensures opened { Tells (D.disk disk.old) → OnOk result ((more : List LiveRun) → with_runs Forward (seen (D.disk disk.old)) (runs_of 0 more) family.new.levels ≡ with_runs Forward (seen (D.disk disk.old)) (runs_of 0 (run.now ∷ more)) family.old.levels) }
    ensures memtable { family.new.memtable ≡ family.old.memtable }
    ensures cached { family.new.cached ≡ family.old.cached }
    ensures rises { Rises 0 (D.disk disk.old) (D.disk disk.new) }
    ensures same { Tells (D.disk disk.old) → Same (D.disk disk.old) (D.disk disk.new) }
    ensures stops { IfErr result (RunStops run.now (D.disk disk.old) (D.disk disk.new)) }
{
    if run.family != 0 {
        return Ok(());
    }
    open_own(alloc, disk, family, run)
}

/// Opens the runs of family 0 among these, each into its level. Takes memory.
pub fn open_runs<D: Disk>(
    alloc: Global,
    disk: &mut D,
    family: &mut Family,
    runs: &[LiveRun],
) -> Result<(), Stop>
    requires levels { AllByRecursion (λ r. r.level ≤ 4) runs.now }
    requires forward { direction_of family.old ≡ Forward }
    ensures forward { direction_of family.new ≡ Forward }
    ensures opened { Tells (D.disk disk.old) → OnOk result (family.new.levels ≡ with_runs Forward (seen (D.disk disk.old)) (runs_of 0 runs.now) family.old.levels) }
    ensures memtable { family.new.memtable ≡ family.old.memtable }
    ensures cached { family.new.cached ≡ family.old.cached }
    ensures rises { Rises 0 (D.disk disk.old) (D.disk disk.new) }
    ensures same { Tells (D.disk disk.old) → Same (D.disk disk.old) (D.disk disk.new) }
    ensures stops { IfErr result (SystemStops runs.now (D.disk disk.old) (D.disk disk.new)) }
{
    'opening: for i in 0..runs.len() {
        match open_one(alloc, disk, family, &runs[i]) {
            Ok(()) => {}
            Err(stop) => return Err(stop),
        }
    }
    Ok(())
}
