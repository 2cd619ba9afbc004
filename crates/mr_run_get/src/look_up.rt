//! A look-up in a run.
ghost use Rattle.std.specs.Prelude.{◌≡◌, ◌≢◌, ◌<◌, ◌≤◌, ◌+◌, ℕ, List, length, true, IfOk, IfErr, OnOk};
ghost use Rattle.std.specs.List.{AllByRecursion};
ghost use Rattle.std.specs.Map.{keys_of};
ghost use Rattle.std.specs.Option.{option_map};
ghost use Rattle.mr_base.specs.Disk.{Tells, seen};
ghost use Rattle.mr_base.specs.Calls.{Same, Counts};
ghost use Rattle.mr_iter.specs.Cursors.{MayStop};
ghost use Rattle.mr_iter.specs.Versions.{Version, version_cmp, IsInOrder, joined};
ghost use Rattle.mr_iter.specs.Newest.{newest};
ghost use Rattle.mr_block.specs.Held.{version_held};
ghost use Rattle.mr_block_cache.specs.Cache.{with_spans, AgreesWith, IsWarm};
ghost use Rattle.mr_run_file.specs.Reading.{IsRun};
ghost use Rattle.mr_run_open.specs.Runs.{HasIndex, are_in_order};
ghost use Rattle.mr_run_get.specs.Get.{between, sizes, spans_of, key_blocks, AreRead, IsGapless, IsOffenceIn};

use crate::fetch::many_blocks;
use crate::newest::{newest_in, newest_of};
use crate::one::one_block;
use mr_base::{Disk, Stop};
use mr_block::Found;
use mr_block_cache::BlockCache;
use mr_run_open::Run;
use std::alloc::Global;

/// The newest version of a key that isn't past a number, in one block. Takes memory.
fn look_in_one<D: Disk>(
    alloc: Global,
    run: &Run,
    disk: &mut D,
    cache: &mut BlockCache,
    first: usize,
    key: &[u8],
    number: u64,
) -> Result<Option<Found>, Stop>
    requires { first < length run.now.index.blocks }
    ensures found { Tells (D.disk disk.old) → IsGapless run.now → AgreesWith run.now.file (seen (D.disk disk.old) run.now.file) cache.old → (vss : List (List Version)) → AreRead (seen (D.disk disk.old) run.now.file) (between first (first + 1) run.now.index.blocks) vss → AllByRecursion (IsInOrder (version_cmp run.now.direction)) vss → IfOk result (λ f. option_map version_held f ≡ newest number key.now (joined vss)) }
    ensures counts { Counts 1 (sizes (between first (first + 1) run.now.index.blocks)) 0 (D.disk disk.old) (D.disk disk.new) }
    ensures warm { IsWarm (spans_of run.now (between first (first + 1) run.now.index.blocks)) cache.old → Counts 0 0 0 (D.disk disk.old) (D.disk disk.new) }
    ensures same { Tells (D.disk disk.old) → Same (D.disk disk.old) (D.disk disk.new) }
    ensures stops { IfErr result (MayStop (IsOffenceIn run.now (between first (first + 1) run.now.index.blocks)) (D.disk disk.old) (D.disk disk.new)) }
    ensures order { OnOk result (keys_of cache.new ≡ with_spans (spans_of run.now (between first (first + 1) run.now.index.blocks)) (keys_of cache.old)) }
    ensures agrees { Tells (D.disk disk.old) → IsGapless run.now → AgreesWith run.now.file (seen (D.disk disk.old) run.now.file) cache.old → AgreesWith run.now.file (seen (D.disk disk.old) run.now.file) cache.new }
    ensures others { (file : ℕ) → (bytes : List ℕ) → file ≢ run.now.file → AgreesWith file bytes cache.old → AgreesWith file bytes cache.new }
{
    let block = match one_block(alloc, run, disk, cache, first) {
        Ok(block) => block,
        Err(stop) => return Err(stop),
    };
    match newest_in(&block, key, number, run.direction()) {
        Ok(found) => Ok(found),
        Err(_) => Err(Stop::Memory),
    }
}

/// The same in the blocks from one up to another. Takes memory.
fn look_in_many<D: Disk>(
    alloc: Global,
    run: &Run,
    disk: &mut D,
    cache: &mut BlockCache,
    first: usize,
    behind: usize,
    key: &[u8],
    number: u64,
) -> Result<Option<Found>, Stop>
    requires order { first < behind }
    requires within { behind ≤ length run.now.index.blocks }
    ensures found { Tells (D.disk disk.old) → IsGapless run.now → AgreesWith run.now.file (seen (D.disk disk.old) run.now.file) cache.old → (vss : List (List Version)) → AreRead (seen (D.disk disk.old) run.now.file) (between first behind run.now.index.blocks) vss → AllByRecursion (IsInOrder (version_cmp run.now.direction)) vss → IfOk result (λ f. option_map version_held f ≡ newest number key.now (joined vss)) }
    ensures counts { Counts 1 (sizes (between first behind run.now.index.blocks)) 0 (D.disk disk.old) (D.disk disk.new) }
    ensures warm { IsWarm (spans_of run.now (between first behind run.now.index.blocks)) cache.old → Counts 0 0 0 (D.disk disk.old) (D.disk disk.new) }
    ensures same { Tells (D.disk disk.old) → Same (D.disk disk.old) (D.disk disk.new) }
    ensures stops { IfErr result (MayStop (IsOffenceIn run.now (between first behind run.now.index.blocks)) (D.disk disk.old) (D.disk disk.new)) }
    ensures order { OnOk result (keys_of cache.new ≡ with_spans (spans_of run.now (between first behind run.now.index.blocks)) (keys_of cache.old)) }
    ensures agrees { Tells (D.disk disk.old) → IsGapless run.now → AgreesWith run.now.file (seen (D.disk disk.old) run.now.file) cache.old → AgreesWith run.now.file (seen (D.disk disk.old) run.now.file) cache.new }
    ensures others { (file : ℕ) → (bytes : List ℕ) → file ≢ run.now.file → AgreesWith file bytes cache.old → AgreesWith file bytes cache.new }
{
    let blocks = match many_blocks(alloc, run, disk, cache, first, behind) {
        Ok(blocks) => blocks,
        Err(stop) => return Err(stop),
    };
    match newest_of(&blocks, key, number, run.direction()) {
        Ok(found) => Ok(found),
        Err(_) => Err(Stop::Memory),
    }
}

/// The newest version of a key that isn't past a number, deletions included, None where the run has none. The blocks in which, by the
/// first keys of the index alone, the key can stand go to the front of the cache one after the other, so that the last of them stands
/// first; where it lacks any of them they come by one read. Takes memory.
pub fn get<D: Disk>(
    alloc: Global,
    run: &Run,
    disk: &mut D,
    cache: &mut BlockCache,
    key: &[u8],
    number: u64,
) -> Result<Option<Found>, Stop>
    ensures found { Tells (D.disk disk.old) → HasIndex run.now (seen (D.disk disk.old)) → AgreesWith run.now.file (seen (D.disk disk.old) run.now.file) cache.old → (vs : List Version) → IsRun run.now.direction run.now.entries (seen (D.disk disk.old) run.now.file) vs → IfOk result (λ f. option_map version_held f ≡ newest number key.now vs) }
    ensures counts { Counts 1 (sizes run.now.index.blocks) 0 (D.disk disk.old) (D.disk disk.new) }
    ensures asked { are_in_order run.now.direction run.now.index.blocks ≡ true → Counts 1 (sizes (key_blocks run.now key.now)) 0 (D.disk disk.old) (D.disk disk.new) }
    ensures warm { are_in_order run.now.direction run.now.index.blocks ≡ true → IsWarm (spans_of run.now (key_blocks run.now key.now)) cache.old → Counts 0 0 0 (D.disk disk.old) (D.disk disk.new) }
    ensures same { Tells (D.disk disk.old) → Same (D.disk disk.old) (D.disk disk.new) }
    ensures stops { IfErr result (MayStop (IsOffenceIn run.now run.now.index.blocks) (D.disk disk.old) (D.disk disk.new)) }
    ensures damage { are_in_order run.now.direction run.now.index.blocks ≡ true → IfErr result (MayStop (IsOffenceIn run.now (key_blocks run.now key.now)) (D.disk disk.old) (D.disk disk.new)) }
    ensures order { are_in_order run.now.direction run.now.index.blocks ≡ true → OnOk result (keys_of cache.new ≡ with_spans (spans_of run.now (key_blocks run.now key.now)) (keys_of cache.old)) }
    ensures agrees { Tells (D.disk disk.old) → IsGapless run.now → AgreesWith run.now.file (seen (D.disk disk.old) run.now.file) cache.old → AgreesWith run.now.file (seen (D.disk disk.old) run.now.file) cache.new }
    ensures others { (file : ℕ) → (bytes : List ℕ) → file ≢ run.now.file → AgreesWith file bytes cache.old → AgreesWith file bytes cache.new }
{
    let first = run.first_block(key);
    let behind = run.behind_block(key);
    if first >= behind {
        return Ok(None);
    }
    if behind - first == 1 {
        return look_in_one(alloc, run, disk, cache, first, key, number);
    }
    look_in_many(alloc, run, disk, cache, first, behind, key, number)
}
