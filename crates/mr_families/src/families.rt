//! The families of a store.
ghost use Rattle.std.specs.Prelude.{◌≡◌, ◌≢◌, ◌≤◌, ◌<◌, ◌+◌, ◌∷◌, [], ℕ, List, length, get_or, true, IfOk, IfErr, OnOk, OnErr};
ghost use Rattle.std.specs.Option.{option_map};
ghost use Rattle.std.specs.List.{AllByRecursion};
ghost use Rattle.mr_base.specs.Disk.{Tells, Image, seen};
ghost use Rattle.mr_base.specs.Calls.{Same, Counts, Reads};
ghost use Rattle.mr_base.specs.declared.stop.Direction.TheVariants.{Forward};
ghost use Rattle.mr_iter.specs.Cursors.{MayStop};
ghost use Rattle.mr_iter.specs.Newest.{newest};
ghost use Rattle.mr_block.specs.Held.{version_held};
ghost use Rattle.mr_block_cache.specs.Cache.{AgreesWith};
ghost use Rattle.mr_run_file.specs.Reading.{footer_number};
ghost use Rattle.mr_run_open.specs.Runs.{OpenStops};
ghost use Rattle.mr_levels.specs.Levels.{runs, HasOffence};
ghost use Rattle.mr_levels.specs.Opened.{IsOpened};
ghost use Rattle.mr_levels.specs.Looks.{looked, Brings, HasKeyOffence, AreSorted, AreGapless};
ghost use Rattle.mr_levels.specs.Spans.{spans_of_levels};
ghost use Rattle.mr_family.specs.Family.{direction as direction_of, files, versions, IsWhole, IsTrueTo, reads_of, bytes_of, IsWarmFor};
ghost use Rattle.mr_family.specs.Parts.{cursor_at, IsViewAt};
ghost use Rattle.mr_families.specs.Known.{family_at, empty_family, numbers, is_known as is_listed, are_out_of_memory, AreAscending};
ghost use Rattle.mr_families.specs.Changed.{OnlyAt, Learnt, SameButRooms};
ghost use Rattle.mr_families.specs.Batches.{AreKnown, AreAwaited, Added};

use crate::adding::add_in;
use crate::learning::{empty_of, first_two, learn_in};
use crate::numbered::Numbered;
use crate::places::{family_of, is_in, none_in_memory, number_in};
use crate::reading::{get_in, open_in};
use crate::reserving::reserve_in;
use mr_base::{Direction, Disk, Memory, Stop};
use mr_block::Found;
use mr_compact::SpanList;
use mr_family::{Family, FamilyCursor};
use mr_iter::{Listed, RunInfo};
use mr_wal::Operation;
use std::alloc::Global;
use std::marker::Model;

/// The families that are known, in the order of their numbers, and the empty one that stands for all others.
#[derive(Drop)]
pub struct Families {
    list: Vec<Numbered>,
    empty: Family,
}

impl Model for Families {
    ghost use Rattle.std.specs.Prelude.{◌≡◌, List};
    ghost use Rattle.mr_base.specs.declared.stop.Direction.TheVariants.{Forward};
    ghost use Rattle.mr_families.specs.declared.numbered.Numbered.{Numbered};
    ghost use Rattle.mr_families.specs.Known.{AreKept, empty_family};

    ghost Value = { List Numbered };

    ghost view = { λ f. f.list.items };

    ghost invariant = { λ f. AreKept f.list.items × (f.empty ≡ empty_family Forward) };
}

impl Families {
    /// Families 0 and 1, forward and empty. Takes memory.
    pub fn new(alloc: Global) -> Result<Families, Memory>
        ensures numbers { IfOk result (λ f. numbers f ≡ 0 ∷ 1 ∷ []) }
        ensures empty { (number : ℕ) → IfOk result (λ f. family_at f number ≡ empty_family Forward) }
    {
        let list = first_two(alloc)?;
        let empty = empty_of(alloc, Direction::Forward)?;
        Ok(Families { list, empty })
    }

    /// How many families are known.
    pub fn count(&self) -> usize
        ensures count { result ≡ length (numbers self.now) }
        ensures ascending { AreAscending self.now }
    {
        self.list.len()
    }

    /// The number at a place below their count. The numbers rise.
    pub fn number_at(&self, place: usize) -> u32
        requires { place < length (numbers self.now) }
        ensures { result ≡ get_or (numbers self.now) place 0 }
    {
        number_in(&self.list, place)
    }

    /// Whether a number is known.
    pub fn is_known(&self, number: u32) -> bool
        ensures { result ≡ is_listed self.now number }
    {
        is_in(&self.list, number)
    }

    /// The direction of a family; that of a number that isn't known is forward.
    pub fn direction(&self, number: u32) -> Direction
        ensures direction { result ≡ direction_of (family_at self.now number) }
        ensures memtable { (family_at self.now number).memtable.direction ≡ direction_of (family_at self.now number) }
    {
        family_of(&self.list, &self.empty, number).direction()
    }

    /// Whether no family has a version in memory.
    pub fn is_memory_empty(&self) -> bool
        ensures { result ≡ are_out_of_memory self.now }
    {
        none_in_memory(&self.list)
    }

    /// Makes a number known. A new one is an empty family of this direction, and so is one that had another direction, no version and no
    /// run; its room is gone then. Any other family stays as it is. Takes memory; after an error nothing has changed.
    pub fn learn(&mut self, alloc: Global, number: u32, direction: Direction) -> Result<(), Memory>
        ensures learnt { OnOk result (Learnt number direction self.old self.new) }
        ensures unchanged { OnErr result (self.new ≡ self.old) }
    {
        learn_in(&mut self.list, alloc, number, direction)
    }

    /// Opens a run of a family and adds it to a level: 0 for the newest ones, or 1 to 4. Its structure is judged, none of its blocks is.
    /// Takes memory; after an error nothing has changed.
    pub fn open_run<D: Disk>(
        &mut self,
        alloc: Global,
        disk: &mut D,
        number: u32,
        level: u8,
        info: &RunInfo,
    ) -> Result<(), Stop>
        requires known { is_listed self.old number ≡ true }
        requires level { level ≤ 4 }
        ensures only { OnlyAt number self.old self.new }
        ensures opened { IfOk result (λ u. IsOpened level info.now (D.disk disk.old) (family_at self.old number).levels (family_at self.new number).levels) }
        ensures unchanged { OnErr result ((family_at self.new number).levels ≡ (family_at self.old number).levels) }
        ensures memtable { (family_at self.new number).memtable ≡ (family_at self.old number).memtable }
        ensures cached { (family_at self.new number).cached ≡ (family_at self.old number).cached }
        ensures stops { IfErr result (OpenStops info.now.file info.now.length info.now.entries (D.disk disk.old) (D.disk disk.new)) }
        ensures counts { Counts 2 info.now.length 0 (D.disk disk.old) (D.disk disk.new) }
        ensures asked { Tells (D.disk disk.old) → Reads 2 (40 + footer_number 1 (seen (D.disk disk.old) info.now.file)) (D.disk disk.old) (D.disk disk.new) }
        ensures same { Tells (D.disk disk.old) → Same (D.disk disk.old) (D.disk disk.new) }
    {
        open_in(&mut self.list, alloc, disk, number, level, info)
    }

    /// The newest version of a key of a family that isn't past a number, deletions included, None where there is none. It looks into at
    /// most the newest runs and one run of each of the four levels behind them, and what it read is held for the next look-up. In a
    /// family that isn't known there is none, and nothing is read. Takes memory.
    pub fn get<D: Disk>(
        &mut self,
        alloc: Global,
        disk: &mut D,
        number: u32,
        key: &[u8],
        at: u64,
    ) -> Result<Option<Found>, Stop>
        ensures only { OnlyAt number self.old self.new }
        ensures found { Tells (D.disk disk.old) → IsWhole (family_at self.old number) (seen (D.disk disk.old)) → IsTrueTo (seen (D.disk disk.old)) (family_at self.old number) → IfOk result (λ o. option_map version_held o ≡ newest at key.now (versions (family_at self.old number) (seen (D.disk disk.old)))) }
        ensures memtable { (family_at self.new number).memtable ≡ (family_at self.old number).memtable }
        ensures levels { (family_at self.new number).levels ≡ (family_at self.old number).levels }
        ensures counts { Counts (reads_of key.now (family_at self.old number)) (bytes_of key.now (family_at self.old number)) 0 (D.disk disk.old) (D.disk disk.new) }
        ensures few { reads_of key.now (family_at self.old number) ≤ length (family_at self.old number).levels.newest + 4 }
        ensures warm { AreSorted (looked key.now (family_at self.old number).levels) → IsWarmFor key.now (family_at self.old number) → Counts 0 0 0 (D.disk disk.old) (D.disk disk.new) }
        ensures same { Tells (D.disk disk.old) → Same (D.disk disk.old) (D.disk disk.new) }
        ensures brings { OnOk result (Brings key.now (looked key.now (family_at self.old number).levels) (family_at self.old number).cached (family_at self.new number).cached) }
        ensures stays_true { Tells (D.disk disk.old) → AreGapless (runs (family_at self.old number).levels) → IsTrueTo (seen (D.disk disk.old)) (family_at self.old number) → IsTrueTo (seen (D.disk disk.old)) (family_at self.new number) }
        ensures others { (file : ℕ) (bytes : List ℕ) → AllByRecursion (λ live. file ≢ live) (files (family_at self.old number)) → AgreesWith file bytes (family_at self.old number).cached → AgreesWith file bytes (family_at self.new number).cached }
        ensures stops { IfErr result (MayStop (HasKeyOffence key.now (looked key.now (family_at self.old number).levels)) (D.disk disk.old) (D.disk disk.new)) }
    {
        get_in(&mut self.list, alloc, disk, number, key, at)
    }

    /// A cursor over the versions of a family that stand at a number, at the end until its first seek; over none where the family isn't
    /// known. It reads past the blocks that are held. Takes memory.
    pub fn cursor<'a>(
        &'a self,
        alloc: Global,
        number: u32,
        at: u64,
    ) -> Result<FamilyCursor<'a>, Memory>
        ensures state { IfOk result (λ c. ⟦<FamilyCursor<'a> as Listed>⟧.cursor c ≡ cursor_at at (family_at self.now number)) }
        ensures view { IfOk result (λ c. IsViewAt at (family_at self.now number) (⟦<FamilyCursor<'a> as Listed>⟧.cursor c)) }
        ensures whole { (image : Image) → IsWhole (family_at self.now number) image → IfOk result (λ c. ⟦<FamilyCursor<'a> as Listed>⟧.whole c image) }
        ensures offends { (image : Image) (file place : ℕ) → IfOk result (λ c. ⟦<FamilyCursor<'a> as Listed>⟧.offends c image file place → HasOffence (family_at self.now number).levels image file place) }
    {
        family_of(&self.list, &self.empty, number).cursor(alloc, at)
    }

    /// The live runs of a family with their levels, files and first and last keys: the newest ones first, then level by level. Takes
    /// memory.
    pub fn spans(&self, alloc: Global, number: u32) -> Result<SpanList, Memory>
        ensures { IfOk result (λ s. s ≡ spans_of_levels (family_at self.now number).levels) }
    {
        family_of(&self.list, &self.empty, number).spans(alloc)
    }

    /// Makes room for a batch, of which each family is known, by one pass over it. Room that was there counts as part. Takes memory;
    /// after an error some families may have other room than before.
    pub fn reserve(&mut self, alloc: Global, batch: &[Operation]) -> Result<(), Memory>
        requires { AreKnown self.old batch.now }
        ensures same { SameButRooms self.old self.new }
        ensures awaited { OnOk result (AreAwaited self.new batch.now) }
    {
        reserve_in(&mut self.list, alloc, batch)
    }

    /// Adds a batch under a sequence number, in order. Takes no memory, only the room that was made for it.
    pub fn add(&mut self, batch: &[Operation], sequence: u64)
        requires { AreAwaited self.old batch.now }
        ensures { Added sequence batch.now self.old self.new }
    {
        add_in(&mut self.list, batch, sequence);
    }
}
