//! An open run.
ghost use Rattle.std.specs.Prelude.{◌≡◌, ◌≤◌, ◌<◌, ◌+◌, ◌^◌, length, get_or, IfOk, IfErr, Ok, Err, true};
ghost use Rattle.mr_base.specs.Disk.{Tells, seen};
ghost use Rattle.mr_base.specs.Calls.{Same, Counts, Reads};
ghost use Rattle.mr_iter.specs.Cursors.{MayStop};
ghost use Rattle.mr_run_file.specs.Reading.{recorded_in, footer_number, versions_at};
ghost use Rattle.mr_run_open.specs.Given.{indexed_of};
ghost use Rattle.mr_run_open.specs.Runs.{OpenStops, opened, no_block, first_of, first_block as first_with, behind_block as first_behind, are_in_order};
ghost use Rattle.mr_run_open.specs.Blocks.{judged, IsBlockOffence};

use crate::index::IndexEntry;
use crate::judge::{judge, read_judged};
use crate::search::{count_before, count_upto};
use crate::structure::read_structure;
use bytes::Bytes;
use mr_base::{Blob, Direction, Disk, Malformed, Stop};
use mr_block::SharedBlock;
use mr_iter::RunInfo;
use std::alloc::Global;
use std::marker::Model;

/// Where a block begins in its file, and its length in bytes.
#[derive(Clone, Copy, Debug, PartialEq, Eq)]
pub struct BlockSpan {
    pub place: u64,
    pub size: u32,
}

/// A run whose structure was judged. Its blocks are judged when they are read.
#[derive(Drop)]
pub struct Run {
    info: RunInfo,
    direction: Direction,
    blocks: Vec<IndexEntry>,
    last: Blob,
}

impl Model for Run {
    ghost use Rattle.std.specs.Prelude.{◌<◌, length, map};
    ghost use Rattle.std.specs.List.{AllByRecursion};
    ghost use Rattle.mr_run_open.specs.Runs.{RunState, IsWithin};

    ghost Value = { RunState };

    ghost use Rattle.mr_run_open.specs.Given.{indexed_of};

    ghost view = { λ r. record { file = r.info.file; length = r.info.length; entries = r.info.entries; direction = r.direction; index = record { blocks = map indexed_of r.blocks.items; last = r.last } } };

    ghost invariant = { λ r. (0 < length r.blocks.items) × AllByRecursion IsWithin (map indexed_of r.blocks.items) };
}

impl Run {
    /// Judges the structure of a run's file: that its length is the recorded one, then its footer, then its index, each offence at its
    /// place. Nothing is said of the blocks and of the order of keys. Takes memory, for the index alone and once the footer is judged.
    pub fn open<D: Disk>(
        alloc: Global,
        disk: &mut D,
        info: &RunInfo,
        direction: Direction,
    ) -> Result<Run, Stop>
        ensures run { IfOk result (λ r. r ≡ opened info.now direction r.index) }
        ensures index { Tells (D.disk disk.old) → IfOk result (λ r. recorded_in info.now.length info.now.entries (seen (D.disk disk.old) info.now.file) ≡ Ok r.index) }
        ensures stops { IfErr result (OpenStops info.now.file info.now.length info.now.entries (D.disk disk.old) (D.disk disk.new)) }
        ensures counts { Counts 2 info.now.length 0 (D.disk disk.old) (D.disk disk.new) }
        ensures asked { Tells (D.disk disk.old) → Reads 2 (40 + footer_number 1 (seen (D.disk disk.old) info.now.file)) (D.disk disk.old) (D.disk disk.new) }
        ensures same { Tells (D.disk disk.old) → Same (D.disk disk.old) (D.disk disk.new) }
    {
        match read_structure(alloc, disk, info) {
            Ok(index) => Ok(Run {
                info: *info,
                direction,
                blocks: index.blocks,
                last: index.last,
            }),
            Err(stop) => Err(stop),
        }
    }

    /// Its file, and the file's length and the number of its entries as they are recorded.
    pub fn info(&self) -> RunInfo
        ensures file { result.file ≡ self.now.file }
        ensures length { result.length ≡ self.now.length }
        ensures entries { result.entries ≡ self.now.entries }
    {
        self.info
    }

    pub fn direction(&self) -> Direction
        ensures { result ≡ self.now.direction }
    {
        self.direction
    }

    /// The key of its first entry, by the index.
    pub fn first_key(&self) -> &[u8]
        ensures { result.now ≡ first_of self.now.index }
    {
        self.blocks[0].key.as_slice()
    }

    /// The key of its last entry, by the index.
    pub fn last_key(&self) -> &[u8]
        ensures { result.now ≡ self.now.index.last }
    {
        self.last.as_slice()
    }

    /// How many blocks it has, at least one.
    pub fn block_count(&self) -> usize
        ensures count { result ≡ length self.now.index.blocks }
        ensures some { 0 < result }
    {
        self.blocks.len()
    }

    /// The index's entry of block i.
    fn block(&self, i: usize) -> &IndexEntry
        requires { i < length self.now.index.blocks }
        ensures entry { indexed_of result.now ≡ get_or self.now.index.blocks i no_block }
        ensures within { result.now.place + result.now.size < 2 ^ 64 }
    {
        &self.blocks[i]
    }

    /// Where block i stands.
    pub fn place_of_block(&self, i: usize) -> BlockSpan
        requires { i < length self.now.index.blocks }
        ensures place { result.place ≡ (get_or self.now.index.blocks i no_block).place }
        ensures size { result.size ≡ (get_or self.now.index.blocks i no_block).size }
        ensures within { result.place + result.size < 2 ^ 64 }
    {
        let block = self.block(i);
        BlockSpan {
            place: block.place,
            size: block.size,
        }
    }

    /// The first block in which, by the first keys alone, a key can stand: the last one whose first key comes before it, or the
    /// first of all.
    pub fn first_block(&self, key: &[u8]) -> usize
        ensures within { result < length self.now.index.blocks }
        ensures found { are_in_order self.now.direction self.now.index.blocks ≡ true → result ≡ first_with self.now.direction key.now self.now.index.blocks }
    {
        count_before(&self.blocks, key, self.direction).saturating_sub(1)
    }

    /// The first block behind those in which, by the first keys alone, a key can stand: the first one whose first key comes
    /// behind it, or the number of all.
    pub fn behind_block(&self, key: &[u8]) -> usize
        ensures within { result ≤ length self.now.index.blocks }
        ensures found { are_in_order self.now.direction self.now.index.blocks ≡ true → result ≡ first_behind self.now.direction key.now self.now.index.blocks }
    {
        count_upto(&self.blocks, key, self.direction)
    }

    /// Block i, which these bytes are, or the place in the file of its first offence: its form, then that it has some entries, then that
    /// its first key is the one of the index.
    pub fn judge_block(&self, i: usize, bytes: Bytes) -> Result<SharedBlock, Malformed>
        requires block { i < length self.now.index.blocks }
        requires bytes { length bytes ≤ (get_or self.now.index.blocks i no_block).size }
        ensures ok { IfOk result (λ b. judged (get_or self.now.index.blocks i no_block).place (get_or self.now.index.blocks i no_block).key bytes ≡ Ok b) }
        ensures err { IfErr result (λ m. judged (get_or self.now.index.blocks i no_block).place (get_or self.now.index.blocks i no_block).key bytes ≡ Err m.0) }
        ensures some { IfOk result (λ b. 0 < length b) }
        ensures few { IfOk result (λ b. length b ≤ length bytes) }
    {
        let block = self.block(i);
        judge(block.place, block.key.as_slice(), bytes)
    }

    /// Reads block i, and judges it. One read; takes memory.
    pub fn read_block<D: Disk>(
        &self,
        alloc: Global,
        disk: &mut D,
        i: usize,
    ) -> Result<SharedBlock, Stop>
        requires { i < length self.now.index.blocks }
        ensures read { Tells (D.disk disk.old) → IfOk result (λ b. versions_at (seen (D.disk disk.old) self.now.file) (get_or self.now.index.blocks i no_block) ≡ Ok b) }
        ensures stops { IfErr result (MayStop (IsBlockOffence self.now (get_or self.now.index.blocks i no_block)) (D.disk disk.old) (D.disk disk.new)) }
        ensures counts { Counts 1 (get_or self.now.index.blocks i no_block).size 0 (D.disk disk.old) (D.disk disk.new) }
        ensures same { Tells (D.disk disk.old) → Same (D.disk disk.old) (D.disk disk.new) }
        ensures some { IfOk result (λ b. 0 < length b) }
        ensures few { IfOk result (λ b. length b ≤ (get_or self.now.index.blocks i no_block).size) }
    {
        let block = self.block(i);
        read_judged(
            alloc,
            disk,
            self.info.file,
            block.place,
            block.size,
            block.key.as_slice(),
        )
    }
}
