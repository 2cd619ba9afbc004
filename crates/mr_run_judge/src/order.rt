//! Runs in the order in which they are judged.
ghost use Rattle.std.specs.Prelude.{◌≡◌, IfOk};
ghost use Rattle.mr_iter.specs.Versions.{in_order};
ghost use Rattle.mr_stored.specs.Offences.{run_cmp};

use mr_base::Memory;
use mr_manifest::LiveRun;
use std::alloc::Global;
use std::cmp::Ordering;

/// By family, then by level, then by file.
fn compare_runs(a: &LiveRun, b: &LiveRun) -> Ordering
    ensures { result ≡ run_cmp a.now b.now }
{
    let family = a.family.cmp(&b.family);
    let level = a.level.cmp(&b.level);
    family.then(level.then(a.file.cmp(&b.file)))
}

/// A copy of the runs in that order, equal ones as they stand. Takes memory.
pub fn in_judging_order(alloc: Global, runs: &[LiveRun]) -> Result<Vec<LiveRun>, Memory>
    ensures { IfOk result (λ out. out.items ≡ in_order run_cmp runs.now) }
{
    let mut out = runs.to_vec(alloc)?;
    match out.sort_by(|a, b| compare_runs(a, b)) {
        Ok(()) => Ok(out),
        Err(_) => Err(Memory),
    }
}
