//! A cursor over a run, which reads one block at a time and keeps it.
ghost use Rattle.std.specs.Prelude.{◌≡◌, ◌≤◌, ◌<◌, true, ℕ, None};
ghost use Rattle.mr_base.specs.Disk.{Image};
ghost use Rattle.mr_run_open.specs.Runs.{HasIndex};
ghost use Rattle.mr_run_file.specs.Reading.{IsRun};
ghost use Rattle.mr_run_cursor.specs.Pinned.{pinned_at, IsWhole, IsRunOffence, stands, run_list};
ghost use Rattle.mr_run_cursor.specs.Laws.{pinned_not_whole, pinned_in_order, pinned_by_files, pinned_offends_by_files, pinned_in_place, pinned_costs, pinned_to_end, pinned_going, pinned_bounded};

use crate::blocks::{find_in, following, has_more, next_block};
use mr_base::{Disk, Stop};
use mr_block::SharedBlock;
use mr_iter::{Cursor, Listed};
use mr_run_open::Run;
use std::alloc::Global;

/// A cursor over a run. It reads one block at a time, past any cache, and its slices are lent from that block. It stands at the end
/// until its first seek, and after an error.
#[derive(Drop)]
pub struct PinnedCursor<'a> {
    alloc: Global,
    run: &'a Run,
    /// The blocks from `start` up to `end` were read since the last seek.
    start: usize,
    end: usize,
    /// The last one of them, where it stands on an entry.
    block: Option<SharedBlock>,
    at: usize,
    ghost standing: { stands run.now start end at block ≡ true },
}

impl<'a> PinnedCursor<'a> {
    /// At the end. Nothing is read.
    pub fn new(alloc: Global, run: &'a Run) -> PinnedCursor<'a>
        ensures state { ⟦<PinnedCursor<'a> as Listed>⟧.cursor result ≡ pinned_at run.now 0 0 0 None }
        ensures whole { (image : Image) → HasIndex run.now image → IsRun run.now.direction run.now.entries (image run.now.file) (run_list run.now image) → ⟦<PinnedCursor<'a> as Listed>⟧.whole result image }
        ensures offends { (image : Image) (file at : ℕ) → ⟦<PinnedCursor<'a> as Listed>⟧.offends result image file at → IsRunOffence run.now image file at }
    {
        PinnedCursor {
            alloc,
            run,
            start: 0,
            end: 0,
            block: None,
            at: 0,
        }
    }
}

impl<'a> Listed for PinnedCursor<'a> {
    ghost cursor = { λ c. pinned_at c.run.now c.start c.end c.at c.block };

    ghost whole = { λ c image. IsWhole c.run.now c.end c.block image };

    ghost offends = { λ c image file at. IsRunOffence c.run.now image file at };

    ghost steady = { λ c image. Unit {0} };

    fn at_end(&self) -> bool {
        self.block.is_none()
    }

    fn key(&self) -> &[u8] {
        match &self.block {
            Some(block) => block.view().key(self.at),
            None => &[],
        }
    }

    fn value(&self) -> &[u8] {
        match &self.block {
            Some(block) => block.view().entry(self.at).1,
            None => &[],
        }
    }

    fn sequence(&self) -> u64 {
        match &self.block {
            Some(block) => block.view().sequence(self.at),
            None => 0,
        }
    }

    fn is_put(&self) -> bool {
        match &self.block {
            Some(block) => block.view().is_put(self.at),
            None => false,
        }
    }

    ghost not_whole = { λ c image file at offence whole. pinned_not_whole c.run.now c.end c.block image file at offence whole };

    ghost in_order = { λ c image whole. pinned_in_order c.run.now c.start c.end c.at c.block image c.standing whole };

    ghost by_files = { λ c i j same whole. pinned_by_files c.run.now c.start c.end c.at c.block i j same whole };

    ghost offends_by_files = { λ c i j file at same offence. pinned_offends_by_files c.run.now i j file at same offence };

    ghost in_place = { λ c image whole steady. pinned_in_place c.run.now c.start c.end c.at c.block image c.standing whole };

    ghost costs = { λ c image k whole steady one key. pinned_costs c.run.now c.start c.end c.at c.block image k c.standing whole key };

    ghost to_end = { λ c image k place whole. pinned_to_end c.run.now c.start c.end c.at c.block image k place };

    ghost going = { λ c is. pinned_going c.run.now c.start c.end c.at c.block c.standing is };

    ghost bounded = { λ c. pinned_bounded c.run.now c.start c.end c.at c.block c.standing };
}

impl<'a, D: Disk> Cursor<D> for PinnedCursor<'a> {
    fn seek(&mut self, disk: &mut D, key: &[u8]) -> Result<(), Stop> {
        let first = self.run.first_block(key);
        let behind = following(self.run, first);
        self.block = None;
        self.at = 0;
        self.start = first;
        self.end = behind;
        match find_in(self.alloc, disk, self.run, first, key) {
            Ok(Some(pin)) => {
                self.at = pin.at;
                self.block = Some(pin.block);
                return Ok(());
            }
            Ok(None) => {}
            Err(stop) => return Err(stop),
        }
        self.end = following(self.run, behind);
        match next_block(self.alloc, disk, self.run, behind) {
            Ok(block) => {
                self.block = block;
                Ok(())
            }
            Err(stop) => Err(stop),
        }
    }

    fn next(&mut self, disk: &mut D) -> Result<(), Stop> {
        if has_more(&self.block, self.at) {
            self.at += 1;
            return Ok(());
        }
        let end = self.end;
        self.block = None;
        self.at = 0;
        self.end = following(self.run, end);
        match next_block(self.alloc, disk, self.run, end) {
            Ok(block) => {
                self.block = block;
                Ok(())
            }
            Err(stop) => Err(stop),
        }
    }
}
