//! Runs that are put in their places.
ghost use Rattle.std.specs.Prelude.{◌≡◌, ◌<◌, ◌≤◌, ◌∷◌, length, map, [], IfOk, OnOk, OnErr};
ghost use Rattle.std.specs.List.{insert, prefix_len, AllByRecursion};
ghost use Rattle.std.specs.Ordering.{is_gt};
ghost use Rattle.mr_iter.specs.Versions.{place_in, IsInOrder};
ghost use Rattle.mr_levels.specs.Levels.{newer_first, by_last_key, changed_at};

use crate::placing::count_before;
use mr_base::{Direction, Memory};
use mr_run_open::Run;
use std::alloc::Global;

/// Four levels without a run.
pub fn no_levels(alloc: Global) -> Result<Vec<Vec<Run>>, Memory>
    ensures { IfOk result (λ ls. map (λ rs. rs.items) ls.items ≡ [] ∷ [] ∷ [] ∷ [] ∷ []) }
{
    let empty = [
        Vec::new(alloc),
        Vec::new(alloc),
        Vec::new(alloc),
        Vec::new(alloc),
    ];
    match Vec::from_array(alloc, empty) {
        Ok(levels) => Ok(levels),
        Err(_) => Err(Memory),
    }
}

/// How many of the newest runs have a greater file number than this run.
fn count_newer(runs: &[Run], run: &Run) -> usize
    ensures within { result ≤ length runs.now }
    ensures count { result ≡ prefix_len (λ r. is_gt (newer_first run.now r)) runs.now }
{
    'counting: for i in 0..runs.len() {
        if runs[i].info().file <= run.info().file {
            return i;
        }
    }
    runs.len()
}

/// Puts a run at a place. Takes memory.
fn insert_run(runs: &mut Vec<Run>, place: usize, run: Run) -> Result<(), Memory>
    requires { place ≤ length runs.old.items }
    ensures added { OnOk result (runs.new.items ≡ insert runs.old.items place run) }
    ensures unchanged { OnErr result (runs.new.items ≡ runs.old.items) }
{
    match runs.insert(place, run) {
        Ok(()) => Ok(()),
        Err(_) => Err(Memory),
    }
}

/// Puts a run in front of the first one that isn't newer. Takes memory.
pub fn add_newest(runs: &mut Vec<Run>, run: Run) -> Result<(), Memory>
    ensures added { OnOk result (runs.new.items ≡ place_in newer_first run runs.old.items) }
    ensures unchanged { OnErr result (runs.new.items ≡ runs.old.items) }
{
    let place = count_newer(runs, &run);
    insert_run(runs, place, run)
}

/// Puts a run of a level in front of the first one whose last key doesn't come before its own. Takes memory.
fn add_to_level(runs: &mut Vec<Run>, direction: Direction, run: Run) -> Result<(), Memory>
    requires { IsInOrder (by_last_key direction) runs.old.items }
    ensures added { OnOk result (runs.new.items ≡ place_in (by_last_key direction) run runs.old.items) }
    ensures unchanged { OnErr result (runs.new.items ≡ runs.old.items) }
{
    let place = count_before(direction, runs, run.last_key());
    insert_run(runs, place, run)
}

/// Puts a run into the level at a place. Takes memory.
pub fn add_deeper(
    levels: &mut Vec<Vec<Run>>,
    direction: Direction,
    i: usize,
    run: Run,
) -> Result<(), Memory>
    requires within { i < length levels.old.items }
    requires ordered { AllByRecursion (IsInOrder (by_last_key direction)) (map (λ rs. rs.items) levels.old.items) }
    ensures added { OnOk result (map (λ rs. rs.items) levels.new.items ≡ changed_at i (place_in (by_last_key direction) run) (map (λ rs. rs.items) levels.old.items)) }
    ensures unchanged { OnErr result (map (λ rs. rs.items) levels.new.items ≡ map (λ rs. rs.items) levels.old.items) }
{
    add_to_level(&mut levels[i], direction, run)
}
