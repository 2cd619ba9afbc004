//! The ends of runs in the order of a list of these runs.
ghost use Rattle.std.specs.Prelude.{◌≡◌, ◌<◌, length, get_or, map, true, IfOk};
ghost use Rattle.std.specs.List.{AllByRecursion};
ghost use Rattle.mr_base.specs.Disk.{Image};
ghost use Rattle.mr_run_judge.specs.Judged.{HasEnds, no_ends};
ghost use Rattle.mr_run_judge.specs.Meeting.{is_run as are_equal, is_listed, runs_of_ends};

use crate::ends::Ends;
use mr_base::Memory;
use mr_manifest::LiveRun;
use std::alloc::Global;

fn is_run(a: &LiveRun, b: &LiveRun) -> bool
    ensures { result ≡ are_equal a.now b.now }
{
    a.file == b.file
        && a.family == b.family
        && a.level == b.level
        && a.length == b.length
        && a.entries == b.entries
}

/// The place of a run's ends among these.
fn place_of(opened: &[Ends], run: &LiveRun) -> usize
    requires { is_listed run.now (runs_of_ends opened.now) ≡ true }
    ensures within { result < length opened.now }
    ensures found { are_equal run.now (get_or opened.now result no_ends).run ≡ true }
{
    'finding: for i in 0..opened.len() {
        if is_run(run, &opened[i].run) {
            return i;
        }
    }
    opened.len()
}

fn copy_of(alloc: Global, ends: &Ends) -> Result<Ends, Memory>
    ensures { IfOk result (λ e. e ≡ ends.now) }
{
    let lowest = ends.lowest.copy(alloc)?;
    let highest = ends.highest.copy(alloc)?;
    Ok(Ends {
        run: ends.run,
        lowest,
        highest,
    })
}

/// A copy of each run's ends, in the order of the runs. Takes memory.
pub fn in_list_order(alloc: Global, opened: &[Ends], runs: &[LiveRun]) -> Result<Vec<Ends>, Memory>
    requires { AllByRecursion (λ r. is_listed r (runs_of_ends opened.now) ≡ true) runs.now }
    ensures runs { IfOk result (λ es. map (λ e. e.run) es.items ≡ runs.now) }
    ensures ends { (image : Image) → AllByRecursion (HasEnds image) opened.now → IfOk result (λ es. AllByRecursion (HasEnds image) es.items) }
{
    let mut out = Vec::new(alloc);
    'listing: for i in 0..runs.len() {
        let ends = copy_of(alloc, &opened[place_of(opened, &runs[i])])?;
        match out.push(ends) {
            Ok(()) => {}
            Err(_) => return Err(Memory),
        }
    }
    Ok(out)
}
