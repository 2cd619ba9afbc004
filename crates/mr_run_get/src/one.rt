//! A look-up that touches one block.
ghost use Rattle.std.specs.Prelude.{◌≡◌, ◌≢◌, ◌<◌, ℕ, List, [], ◌∷◌, length, get_or, is_some, true, IfOk, IfErr, OnOk, Ok};
ghost use Rattle.std.specs.Map.{keys_of};
ghost use Rattle.mr_base.specs.Disk.{Tells, seen};
ghost use Rattle.mr_base.specs.Calls.{Same, Counts};
ghost use Rattle.mr_iter.specs.Cursors.{MayStop};
ghost use Rattle.mr_block_cache.specs.Cache.{held, with_span, AgreesWith};
ghost use Rattle.mr_run_open.specs.Runs.{no_block};
ghost use Rattle.mr_run_get.specs.Get.{span_of as span, read_in, IsOffenceIn};

use crate::span::span_of;
use mr_base::{Disk, Stop};
use mr_block::SharedBlock;
use mr_block_cache::BlockCache;
use mr_run_open::Run;
use std::alloc::Global;

/// Block i of a run, which goes to the front of the cache; it is read where the cache lacks it. Takes memory.
pub fn one_block<D: Disk>(
    alloc: Global,
    run: &Run,
    disk: &mut D,
    cache: &mut BlockCache,
    i: usize,
) -> Result<SharedBlock, Stop>
    requires { i < length run.now.index.blocks }
    ensures counts { Counts 1 (get_or run.now.index.blocks i no_block).size 0 (D.disk disk.old) (D.disk disk.new) }
    ensures warm { is_some (held (span run.now.file (get_or run.now.index.blocks i no_block)) cache.old) ≡ true → Counts 0 0 0 (D.disk disk.old) (D.disk disk.new) }
    ensures same { Tells (D.disk disk.old) → Same (D.disk disk.old) (D.disk disk.new) }
    ensures stops { IfErr result (MayStop (IsOffenceIn run.now (get_or run.now.index.blocks i no_block ∷ [])) (D.disk disk.old) (D.disk disk.new)) }
    ensures order { OnOk result (keys_of cache.new ≡ with_span (span run.now.file (get_or run.now.index.blocks i no_block)) (keys_of cache.old)) }
    ensures read { Tells (D.disk disk.old) → AgreesWith run.now.file (seen (D.disk disk.old) run.now.file) cache.old → IfOk result (λ b. read_in (seen (D.disk disk.old) run.now.file) (get_or run.now.index.blocks i no_block) ≡ Ok b) }
    ensures agrees { Tells (D.disk disk.old) → AgreesWith run.now.file (seen (D.disk disk.old) run.now.file) cache.old → AgreesWith run.now.file (seen (D.disk disk.old) run.now.file) cache.new }
    ensures others { (file : ℕ) → (bytes : List ℕ) → file ≢ run.now.file → AgreesWith file bytes cache.old → AgreesWith file bytes cache.new }
{
    let span = span_of(run, i);
    if let Some(block) = cache.find(span)? {
        return Ok(block);
    }
    let block = match run.read_block(alloc, disk, i) {
        Ok(block) => block,
        Err(stop) => return Err(stop),
    };
    cache.put(span, block.share()?)?;
    Ok(block)
}
