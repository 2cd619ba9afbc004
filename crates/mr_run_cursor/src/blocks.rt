//! The blocks that a cursor reads, one at a time.
ghost use Rattle.std.specs.Prelude.{◌≡◌, ◌≤◌, ◌<◌, ◌+◌, ◌-◌, ◌^◌, min, length, get_or, drop, IfOk, IfErr, IfSome, Ok, is_some, nat_lt, true, []};
ghost use Rattle.mr_base.specs.Disk.{Tells, seen};
ghost use Rattle.mr_base.specs.Calls.{Same, Counts};
ghost use Rattle.mr_iter.specs.Versions.{version_cmp, IsInOrder, from_key};
ghost use Rattle.mr_iter.specs.Cursors.{MayStop};
ghost use Rattle.mr_run_file.specs.Reading.{versions_at};
ghost use Rattle.mr_run_open.specs.Runs.{no_block};
ghost use Rattle.mr_run_cursor.specs.Pinned.{IsRunOffence, HoldsBlock, sizes, between, more_of};
ghost use Rattle.mr_run_cursor.specs.Found.{IsFoundIn};

use mr_base::{Disk, Stop};
use mr_block::SharedBlock;
use mr_run_open::Run;
use std::alloc::Global;

/// A block, and an entry of it.
#[derive(Drop)]
pub struct Pin {
    pub block: SharedBlock,
    pub at: usize,
}

/// The next block's number, or that of all at the end.
pub fn following(run: &Run, end: usize) -> usize
    ensures { result ≡ min (end + 1) (length run.now.index.blocks) }
{
    let count = run.block_count();
    if end < count { end + 1 } else { count }
}

/// Reads block `end`, if the run has it.
pub fn next_block<D: Disk>(
    alloc: Global,
    disk: &mut D,
    run: &Run,
    end: usize,
) -> Result<Option<SharedBlock>, Stop>
    requires { end ≤ length run.now.index.blocks }
    ensures counts { Counts (min (end + 1) (length run.now.index.blocks) - end) (sizes (between end (min (end + 1) (length run.now.index.blocks)) run.now.index.blocks)) 0 (D.disk disk.old) (D.disk disk.new) }
    ensures same { Tells (D.disk disk.old) → Same (D.disk disk.old) (D.disk disk.new) }
    ensures stops { IfErr result (MayStop (IsRunOffence run.now) (D.disk disk.old) (D.disk disk.new)) }
    ensures some { IfOk result (λ o. is_some o ≡ nat_lt end (length run.now.index.blocks)) }
    ensures held { Tells (D.disk disk.old) → IfOk result (λ o. HoldsBlock run.now (end + 1) o (seen (D.disk disk.old))) }
    ensures entries { IfOk result (λ o. IfSome o (λ vs. (0 < length vs) × (length vs ≤ (get_or run.now.index.blocks end no_block).size))) }
{
    if end >= run.block_count() {
        return Ok(None);
    }
    match run.read_block(alloc, disk, end) {
        Ok(block) => Ok(Some(block)),
        Err(stop) => Err(stop),
    }
}

/// Reads block i, and finds the first entry of it whose key isn't before this key, if it has one.
pub fn find_in<D: Disk>(
    alloc: Global,
    disk: &mut D,
    run: &Run,
    i: usize,
    key: &[u8],
) -> Result<Option<Pin>, Stop>
    requires { i < length run.now.index.blocks }
    ensures counts { Counts 1 (get_or run.now.index.blocks i no_block).size 0 (D.disk disk.old) (D.disk disk.new) }
    ensures same { Tells (D.disk disk.old) → Same (D.disk disk.old) (D.disk disk.new) }
    ensures stops { IfErr result (MayStop (IsRunOffence run.now) (D.disk disk.old) (D.disk disk.new)) }
    ensures found { Tells (D.disk disk.old) → IfOk result (λ o. IsFoundIn run.now.direction key.now (seen (D.disk disk.old) run.now.file) (get_or run.now.index.blocks i no_block) o) }
    ensures entries { IfOk result (λ o. IfSome o (λ p. (p.at < length p.block) × (length p.block ≤ (get_or run.now.index.blocks i no_block).size))) }
{
    let block = match run.read_block(alloc, disk, i) {
        Ok(block) => block,
        Err(stop) => return Err(stop),
    };
    let at = block.view().lower_bound(key, run.direction());
    if at < block.view().count() {
        Ok(Some(Pin { block, at }))
    } else {
        Ok(None)
    }
}

/// Whether a block has an entry behind this one.
pub fn has_more(block: &Option<SharedBlock>, at: usize) -> bool
    ensures more { result ≡ more_of block.now at }
    ensures fits { result ≡ true → at + 1 < 2 ^ 64 }
{
    match block {
        Some(block) => block.view().count().saturating_sub(at) > 1,
        None => false,
    }
}
