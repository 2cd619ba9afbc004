//! The blocks of a look-up, from the cache and the file.
ghost use Rattle.std.specs.Prelude.{◌≡◌, ◌≢◌, ◌<◌, ◌≤◌, ◌-◌, ◌++◌, ℕ, List, length, map, IfOk, IfErr, OnOk, Some};
ghost use Rattle.std.specs.Map.{keys_of};
ghost use Rattle.mr_base.specs.Disk.{Tells, seen};
ghost use Rattle.mr_base.specs.Calls.{Same, Counts};
ghost use Rattle.mr_iter.specs.Cursors.{MayStop};
ghost use Rattle.mr_block_cache.specs.Cache.{held, with_spans, AgreesWith, IsWarm};
ghost use Rattle.mr_run_get.specs.Get.{between, sizes, spans_of, AllHeld, AreRead, IsGapless, IsOffenceIn};

use crate::cut::read_blocks;
use crate::lacking::first_lacking;
use crate::span::span_of;
use mr_base::{Disk, Memory, Stop};
use mr_block::SharedBlock;
use mr_block_cache::BlockCache;
use mr_run_open::Run;
use std::alloc::Global;

/// The blocks from one up to another, all of which are held. Takes memory.
fn share_blocks(
    alloc: Global,
    run: &Run,
    cache: &BlockCache,
    first: usize,
    behind: usize,
) -> Result<Vec<SharedBlock>, Memory>
    requires order { first ≤ behind }
    requires within { behind ≤ length run.now.index.blocks }
    requires held { AllHeld run.now cache.now first behind }
    ensures { IfOk result (λ b. map (λ s. held s cache.now) (spans_of run.now (between first behind run.now.index.blocks)) ≡ map Some b.items) }
{
    let mut blocks = Vec::new(alloc);
    'sharing: for i in first..behind {
        let block = cache.share(span_of(run, i))?;
        match blocks.push(block) {
            Ok(()) => {}
            Err(_) => return Err(Memory),
        }
    }
    Ok(blocks)
}

/// The blocks from one up to another: where all are held those, else those of one read. The cache stays. Takes memory.
fn gather<D: Disk>(
    alloc: Global,
    run: &Run,
    disk: &mut D,
    cache: &BlockCache,
    first: usize,
    behind: usize,
) -> Result<Vec<SharedBlock>, Stop>
    requires order { first < behind }
    requires within { behind ≤ length run.now.index.blocks }
    ensures counts { Counts 1 (sizes (between first behind run.now.index.blocks)) 0 (D.disk disk.old) (D.disk disk.new) }
    ensures warm { IsWarm (spans_of run.now (between first behind run.now.index.blocks)) cache.now → Counts 0 0 0 (D.disk disk.old) (D.disk disk.new) }
    ensures same { Tells (D.disk disk.old) → Same (D.disk disk.old) (D.disk disk.new) }
    ensures stops { IfErr result (MayStop (IsOffenceIn run.now (between first behind run.now.index.blocks)) (D.disk disk.old) (D.disk disk.new)) }
    ensures count { IfOk result (λ b. length b.items ≡ behind - first) }
    ensures read { Tells (D.disk disk.old) → IsGapless run.now → AgreesWith run.now.file (seen (D.disk disk.old) run.now.file) cache.now → IfOk result (λ b. AreRead (seen (D.disk disk.old) run.now.file) (between first behind run.now.index.blocks) b.items) }
{
    if first_lacking(run, cache, first, behind) < behind {
        return read_blocks(alloc, run, disk, first, behind);
    }
    match share_blocks(alloc, run, cache, first, behind) {
        Ok(blocks) => Ok(blocks),
        Err(_) => Err(Stop::Memory),
    }
}

/// Puts these blocks, which are those from one on, to the front of the cache, one after the other. Takes memory.
fn put_blocks(
    run: &Run,
    cache: &mut BlockCache,
    first: usize,
    behind: usize,
    blocks: &[SharedBlock],
) -> Result<(), Memory>
    requires count { length blocks.now ≡ behind - first }
    requires order { first ≤ behind }
    requires within { behind ≤ length run.now.index.blocks }
    ensures order { OnOk result (keys_of cache.new ≡ with_spans (spans_of run.now (between first behind run.now.index.blocks)) (keys_of cache.old)) }
    ensures agrees { (bytes : List ℕ) → AreRead bytes (between first behind run.now.index.blocks) blocks.now → AgreesWith run.now.file bytes cache.old → AgreesWith run.now.file bytes cache.new }
    ensures others { (file : ℕ) → (bytes : List ℕ) → file ≢ run.now.file → AgreesWith file bytes cache.old → AgreesWith file bytes cache.new }
{
    'putting: for i in first..behind {
        cache.put(span_of(run, i), blocks[i - first].share()?)?;
    }
    Ok(())
}

/// The blocks from one up to another, which go to the front of the cache, one after the other. Takes memory.
pub fn many_blocks<D: Disk>(
    alloc: Global,
    run: &Run,
    disk: &mut D,
    cache: &mut BlockCache,
    first: usize,
    behind: usize,
) -> Result<Vec<SharedBlock>, Stop>
    requires order { first < behind }
    requires within { behind ≤ length run.now.index.blocks }
    ensures counts { Counts 1 (sizes (between first behind run.now.index.blocks)) 0 (D.disk disk.old) (D.disk disk.new) }
    ensures warm { IsWarm (spans_of run.now (between first behind run.now.index.blocks)) cache.old → Counts 0 0 0 (D.disk disk.old) (D.disk disk.new) }
    ensures same { Tells (D.disk disk.old) → Same (D.disk disk.old) (D.disk disk.new) }
    ensures stops { IfErr result (MayStop (IsOffenceIn run.now (between first behind run.now.index.blocks)) (D.disk disk.old) (D.disk disk.new)) }
    ensures order { OnOk result (keys_of cache.new ≡ with_spans (spans_of run.now (between first behind run.now.index.blocks)) (keys_of cache.old)) }
    ensures read { Tells (D.disk disk.old) → IsGapless run.now → AgreesWith run.now.file (seen (D.disk disk.old) run.now.file) cache.old → IfOk result (λ b. AreRead (seen (D.disk disk.old) run.now.file) (between first behind run.now.index.blocks) b.items) }
    ensures agrees { Tells (D.disk disk.old) → IsGapless run.now → AgreesWith run.now.file (seen (D.disk disk.old) run.now.file) cache.old → AgreesWith run.now.file (seen (D.disk disk.old) run.now.file) cache.new }
    ensures others { (file : ℕ) → (bytes : List ℕ) → file ≢ run.now.file → AgreesWith file bytes cache.old → AgreesWith file bytes cache.new }
{
    let blocks = match gather(alloc, run, disk, cache, first, behind) {
        Ok(blocks) => blocks,
        Err(stop) => return Err(stop),
    };
    put_blocks(run, cache, first, behind, &blocks)?;
    Ok(blocks)
}
