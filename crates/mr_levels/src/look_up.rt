//! Look-ups in the runs of a family.
ghost use Rattle.std.specs.Prelude.{◌≡◌, ◌∷◌, [], map, IfOk, IfErr};
ghost use Rattle.std.specs.List.{AllByRecursion};
ghost use Rattle.std.specs.Option.{option_map};
ghost use Rattle.mr_iter.specs.Versions.{IsInOrder};
ghost use Rattle.mr_iter.specs.Cursors.{MayStop};
ghost use Rattle.mr_iter.specs.Newest.{later};
ghost use Rattle.mr_block.specs.Held.{version_held};
ghost use Rattle.mr_levels.specs.Levels.{by_last_key};
ghost use Rattle.mr_levels.specs.Looks.{can_hold as can_stand, with_key, parts_of, HasKeyOffence, Spends, Finds};

use crate::placing::part_of;
use mr_base::{Direction, Disk, Stop};
use mr_block::Found;
use mr_block_cache::BlockCache;
use mr_iter::compare_keys;
use mr_run_get::get;
use mr_run_open::Run;
use std::alloc::Global;

/// Whether a key can stand in a run, by its first and its last key.
fn can_hold(direction: Direction, run: &Run, key: &[u8]) -> bool
    ensures { result ≡ can_stand direction key.now run.now }
{
    !compare_keys(direction, run.last_key(), key).is_lt()
        && !compare_keys(direction, run.first_key(), key).is_gt()
}

/// The later of two versions that were found, of equal ones the first.
pub fn later_of(first: Option<Found>, second: Option<Found>) -> Option<Found>
    ensures { option_map version_held result ≡ later (option_map version_held first) (option_map version_held second) }
{
    match first {
        Some(one) => match second {
            Some(other) => {
                if one.sequence() < other.sequence() {
                    Some(other)
                } else {
                    Some(one)
                }
            }
            None => Some(one),
        },
        None => second,
    }
}

/// Looks into one run, where the key can stand in it; the answer is the later of the best so far and what it has. Takes memory.
fn find_one<D: Disk>(
    alloc: Global,
    direction: Direction,
    run: &Run,
    disk: &mut D,
    cache: &mut BlockCache,
    key: &[u8],
    number: u64,
    best: Option<Found>,
) -> Result<Option<Found>, Stop>
    ensures spends { Spends key.now (with_key direction key.now (run.now ∷ [])) (D.disk disk.old) (D.disk disk.new) cache.old cache.new }
    ensures finds { IfOk result (λ o. Finds number key.now (with_key direction key.now (run.now ∷ [])) (D.disk disk.old) cache.old cache.new (option_map version_held best) (option_map version_held o)) }
    ensures stops { IfErr result (MayStop (HasKeyOffence key.now (with_key direction key.now (run.now ∷ []))) (D.disk disk.old) (D.disk disk.new)) }
{
    if !can_hold(direction, run, key) {
        return Ok(best);
    }
    match get(alloc, run, disk, cache, key, number) {
        Ok(found) => Ok(later_of(best, found)),
        Err(stop) => Err(stop),
    }
}

/// Looks into each of these runs in which the key can stand. Takes memory.
pub fn find_in<D: Disk>(
    alloc: Global,
    direction: Direction,
    runs: &[Run],
    disk: &mut D,
    cache: &mut BlockCache,
    key: &[u8],
    number: u64,
    best: Option<Found>,
) -> Result<Option<Found>, Stop>
    ensures spends { Spends key.now (with_key direction key.now runs.now) (D.disk disk.old) (D.disk disk.new) cache.old cache.new }
    ensures finds { IfOk result (λ o. Finds number key.now (with_key direction key.now runs.now) (D.disk disk.old) cache.old cache.new (option_map version_held best) (option_map version_held o)) }
    ensures stops { IfErr result (MayStop (HasKeyOffence key.now (with_key direction key.now runs.now)) (D.disk disk.old) (D.disk disk.new)) }
{
    let mut latest = best;
    'looking: for i in 0..runs.len() {
        match find_one(alloc, direction, &runs[i], disk, cache, key, number, latest) {
            Ok(found) => latest = found,
            Err(stop) => return Err(stop),
        }
    }
    Ok(latest)
}

/// Looks into one run of each level. Takes memory.
pub fn find_deeper<D: Disk>(
    alloc: Global,
    direction: Direction,
    levels: &[Vec<Run>],
    disk: &mut D,
    cache: &mut BlockCache,
    key: &[u8],
    number: u64,
    best: Option<Found>,
) -> Result<Option<Found>, Stop>
    requires { AllByRecursion (IsInOrder (by_last_key direction)) (map (λ rs. rs.items) levels.now) }
    ensures spends { Spends key.now (with_key direction key.now (parts_of direction key.now (map (λ rs. rs.items) levels.now))) (D.disk disk.old) (D.disk disk.new) cache.old cache.new }
    ensures finds { IfOk result (λ o. Finds number key.now (with_key direction key.now (parts_of direction key.now (map (λ rs. rs.items) levels.now))) (D.disk disk.old) cache.old cache.new (option_map version_held best) (option_map version_held o)) }
    ensures stops { IfErr result (MayStop (HasKeyOffence key.now (with_key direction key.now (parts_of direction key.now (map (λ rs. rs.items) levels.now)))) (D.disk disk.old) (D.disk disk.new)) }
{
    let mut latest = best;
    'looking: for i in 0..levels.len() {
        let part = part_of(direction, &levels[i], key);
        match find_in(alloc, direction, part, disk, cache, key, number, latest) {
            Ok(found) => latest = found,
            Err(stop) => return Err(stop),
        }
    }
    Ok(latest)
}
