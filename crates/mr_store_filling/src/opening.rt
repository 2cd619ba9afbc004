//! Live runs that are opened.
ghost use Rattle.std.specs.Prelude.{◌≡◌, ◌≤◌, ◌∷◌, [], OnOk, IfErr, Err};
ghost use Rattle.std.specs.List.{AllByRecursion};
ghost use Rattle.mr_base.specs.Disk.{Tells, seen};
ghost use Rattle.mr_base.specs.Calls.{Same, Rises};
ghost use Rattle.mr_manifest.specs.declared.live.LiveRun.{LiveRun as ALiveRun};
ghost use Rattle.mr_store_filling.specs.Filled.{HaveOpened, OpeningStops};

use mr_base::{Disk, Stop};
use mr_families::Families;
use mr_iter::RunInfo;
use mr_manifest::LiveRun;
use mr_store_memory::learn_number;
use std::alloc::Global;

/// Opens one run. Takes memory.
fn open_one<D: Disk>(
    alloc: Global,
    disk: &mut D,
    families: &mut Families,
    run: &LiveRun,
) -> Result<(), Stop>
    requires level { run.now.level ≤ 4 }
    ensures opened { Tells (D.disk disk.old) → OnOk result (HaveOpened (seen (D.disk disk.old)) (run.now ∷ []) families.old families.new) }
    ensures rises { Rises 0 (D.disk disk.old) (D.disk disk.new) }
    ensures same { Tells (D.disk disk.old) → Same (D.disk disk.old) (D.disk disk.new) }
    ensures stops { IfErr result (OpeningStops (run.now ∷ []) (D.disk disk.old) (D.disk disk.new)) }
{
    learn_number(alloc, families, run.family)?;
    let info = RunInfo {
        file: run.file,
        length: run.length,
        entries: run.entries,
    };
    families.open_run(alloc, disk, run.family, run.level, &info)
}

/// Opens live runs into their families, each at its level from 0 for the newest ones to 4. Families that aren't known become known,
/// forward. Takes memory.
pub fn open_runs<D: Disk>(
    alloc: Global,
    disk: &mut D,
    families: &mut Families,
    runs: &[LiveRun],
) -> Result<(), Stop>
    requires levels { AllByRecursion (λ (run : ALiveRun). run.level ≤ 4) runs.now }
    ensures opened { Tells (D.disk disk.old) → OnOk result (HaveOpened (seen (D.disk disk.old)) runs.now families.old families.new) }
    ensures rises { Rises 0 (D.disk disk.old) (D.disk disk.new) }
    ensures same { Tells (D.disk disk.old) → Same (D.disk disk.old) (D.disk disk.new) }
    ensures stops { IfErr result (OpeningStops runs.now (D.disk disk.old) (D.disk disk.new)) }
{
    'opening: for i in 0..runs.len() {
        open_one(alloc, disk, families, &runs[i])?;
    }
    Ok(())
}
