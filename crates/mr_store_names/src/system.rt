//! Family 0 at the opening of a store.
ghost use Rattle.std.specs.Prelude.{◌≡◌, ◌≤◌, [], IfOk, IfErr, Err};
ghost use Rattle.std.specs.List.{AllByRecursion};
ghost use Rattle.mr_base.specs.Disk.{Tells, HasRisen, seen};
ghost use Rattle.mr_base.specs.Calls.{Rises, Same};
ghost use Rattle.mr_base.specs.declared.stop.Direction.TheVariants.{Forward};
ghost use Rattle.mr_base.specs.declared.stop.Stop.TheVariants.{Disk as DiskStop};
ghost use Rattle.mr_family.specs.Family.{direction as direction_of};
ghost use Rattle.mr_stored.specs.Lists.{levels_of, with_batches};
ghost use Rattle.mr_store_names.specs.Stopping.{SystemStops};

use crate::adding::add_batches;
use crate::opening::open_runs;
use mr_base::{Direction, Disk, Stop};
use mr_engine_log::Batched;
use mr_family::Family;
use mr_manifest::LiveRun;
use std::alloc::Global;

/// Family 0 alone: its live runs are open, and its own operations of these batches are in memory. Takes memory.
pub fn system_family<D: Disk>(
    alloc: Global,
    disk: &mut D,
    runs: &[LiveRun],
    batches: &[Batched],
) -> Result<Family, Stop>
    requires levels { AllByRecursion (λ r. r.level ≤ 4) runs.now }
    ensures levels { Tells (D.disk disk.old) → IfOk result (λ f. f.levels ≡ levels_of Forward 0 (seen (D.disk disk.old)) runs.now) }
    ensures memory { IfOk result (λ f. f.memtable.versions ≡ with_batches Forward 0 batches.now []) }
    ensures cached { IfOk result (λ f. f.cached ≡ []) }
    ensures forward { IfOk result (λ f. direction_of f ≡ Forward) }
    ensures rises { Rises 0 (D.disk disk.old) (D.disk disk.new) }
    ensures same { Tells (D.disk disk.old) → Same (D.disk disk.old) (D.disk disk.new) }
    ensures stops { IfErr result (SystemStops runs.now (D.disk disk.old) (D.disk disk.new)) }
    ensures failed { result ≡ Err DiskStop → HasRisen (D.disk disk.old).faults (D.disk disk.new).faults }
{
    let mut family = Family::new(alloc, Direction::Forward)?;
    open_runs(alloc, disk, &mut family, runs)?;
    add_batches(&mut family, batches)?;
    Ok(family)
}
