//! A family of keys.
ghost use Rattle.std.specs.Prelude.{◌≡◌, ◌<◌, ◌≤◌, ◌+◌, ◌≢◌, ℕ, List, [], length, unwrap_or, None, Ok, IfOk, IfErr, OnOk, OnErr};
ghost use Rattle.std.specs.Option.{option_map};
ghost use Rattle.std.specs.List.{AllByRecursion};
ghost use Rattle.mr_base.specs.Disk.{Tells, Image, seen};
ghost use Rattle.mr_base.specs.Calls.{Same, Counts, Reads};
ghost use Rattle.mr_iter.specs.Versions.{as_version, place_in, version_cmp};
ghost use Rattle.mr_iter.specs.Cursors.{MayStop};
ghost use Rattle.mr_iter.specs.Newest.{newest};
ghost use Rattle.mr_block.specs.Held.{version_held};
ghost use Rattle.mr_block_cache.specs.Cache.{AgreesWith};
ghost use Rattle.mr_run_file.specs.Reading.{footer_number};
ghost use Rattle.mr_run_open.specs.Runs.{OpenStops};
ghost use Rattle.mr_levels.specs.Levels.{runs, no_runs, HasOffence};
ghost use Rattle.mr_levels.specs.Opened.{IsOpened};
ghost use Rattle.mr_levels.specs.Looks.{looked, Brings, HasKeyOffence, AreSorted, AreGapless};
ghost use Rattle.mr_levels.specs.Spans.{spans_of_levels};
ghost use Rattle.mr_family.specs.Family.{direction as direction_of, files, versions as versions_of, IsWhole, IsTrueTo, reads_of, bytes_of, IsWarmFor};
ghost use Rattle.mr_family.specs.Parts.{cursor_at, IsViewAt};
ghost use Rattle.mr_compact.specs.Merges.{AreBefore};
ghost use Rattle.mr_flush.specs.Flushed.{IsFlush, Flushes, FlushStops};

use crate::memory::{are_in_order, later_in_memory};
use crate::parts::{Part, part_cursors};
use mr_base::{Direction, Disk, Memory, Stop};
use mr_block::Found;
use mr_block_cache::BlockCache;
use mr_compact::SpanList;
use mr_flush::flush;
use mr_iter::{AtSnapshot, Listed, Merge, RunInfo, place_in_first_child};
use mr_levels::Levels;
use mr_memtable::Memtable;
use std::alloc::Global;
use std::marker::Model;

/// A cursor over a family's versions that stand at a number.
pub type FamilyCursor<'a> = AtSnapshot<Merge<Part<'a>>>;

/// The versions in memory, the live runs by level, and the blocks of these that were read last.
#[derive(Drop)]
pub struct Family {
    memtable: Memtable,
    levels: Levels,
    cache: BlockCache,
}

impl Model for Family {
    ghost use Rattle.std.specs.Prelude.{◌≡◌};
    ghost use Rattle.mr_family.specs.Family.{FamilyState};

    ghost Value = { FamilyState };

    ghost view = { λ f. record { memtable = f.memtable; levels = f.levels; cached = f.cache } };

    ghost invariant = { λ f. f.memtable.direction ≡ f.levels.direction };
}

impl Family {
    /// No version, no run, and no room. Takes memory.
    pub fn new(alloc: Global, direction: Direction) -> Result<Family, Memory>
        ensures versions { IfOk result (λ f. f.memtable.versions ≡ []) }
        ensures entries { IfOk result (λ f. f.memtable.entries ≡ 0) }
        ensures bytes { IfOk result (λ f. f.memtable.bytes ≡ 0) }
        ensures levels { IfOk result (λ f. f.levels ≡ no_runs direction) }
        ensures cached { IfOk result (λ f. f.cached ≡ []) }
    {
        let levels = Levels::new(alloc, direction)?;
        let cache = BlockCache::new(alloc)?;
        Ok(Family {
            memtable: Memtable::new(alloc, direction),
            levels,
            cache,
        })
    }

    /// The direction of its keys, which its versions in memory have too.
    pub fn direction(&self) -> Direction
        ensures direction { result ≡ direction_of self.now }
        ensures memtable { self.now.memtable.direction ≡ direction_of self.now }
    {
        self.levels.direction()
    }

    /// Opens a run and adds it to a level: 0 for the newest ones, or 1 to 4. Its structure is judged, none of its blocks is. A run that
    /// overlaps another of a level from 1 on is added too: the family isn't whole then. Takes memory; after an error nothing has changed.
    pub fn open_run<D: Disk>(
        &mut self,
        alloc: Global,
        disk: &mut D,
        level: u8,
        info: &RunInfo,
    ) -> Result<(), Stop>
        requires { level ≤ 4 }
        ensures opened { IfOk result (λ u. IsOpened level info.now (D.disk disk.old) self.old.levels self.new.levels) }
        ensures unchanged { OnErr result (self.new.levels ≡ self.old.levels) }
        ensures memtable { self.new.memtable ≡ self.old.memtable }
        ensures cached { self.new.cached ≡ self.old.cached }
        ensures stops { IfErr result (OpenStops info.now.file info.now.length info.now.entries (D.disk disk.old) (D.disk disk.new)) }
        ensures counts { Counts 2 info.now.length 0 (D.disk disk.old) (D.disk disk.new) }
        ensures asked { Tells (D.disk disk.old) → Reads 2 (40 + footer_number 1 (seen (D.disk disk.old) info.now.file)) (D.disk disk.old) (D.disk disk.new) }
        ensures same { Tells (D.disk disk.old) → Same (D.disk disk.old) (D.disk disk.new) }
    {
        self.levels.open_run(alloc, disk, level, info)
    }

    /// Makes room for so many entries, and so many bytes of keys and values. Takes memory; after an error the room is what it was.
    pub fn reserve(&mut self, entries: usize, bytes: usize) -> Result<(), Memory>
        ensures direction { self.new.memtable.direction ≡ self.old.memtable.direction }
        ensures versions { self.new.memtable.versions ≡ self.old.memtable.versions }
        ensures entries { OnOk result (self.new.memtable.entries ≡ entries) }
        ensures bytes { OnOk result (self.new.memtable.bytes ≡ bytes) }
        ensures same_entries { OnErr result (self.new.memtable.entries ≡ self.old.memtable.entries) }
        ensures same_bytes { OnErr result (self.new.memtable.bytes ≡ self.old.memtable.bytes) }
        ensures levels { self.new.levels ≡ self.old.levels }
        ensures cached { self.new.cached ≡ self.old.cached }
    {
        self.memtable.reserve(entries, bytes)
    }

    /// Adds a version; `put` is None for a deletion. Of the same key and number the later one stands in front. Takes no memory, only room.
    pub fn insert(&mut self, key: &[u8], sequence: u64, put: Option<&[u8]>)
        requires entries { 0 < self.old.memtable.entries }
        requires bytes { length key.now + length (unwrap_or (option_map (λ v. v.now) put) []) ≤ self.old.memtable.bytes }
        ensures versions { (image : Image) → versions_of self.new image ≡ place_in (version_cmp (direction_of self.old)) (as_version key.now sequence (option_map (λ v. v.now) put.entry)) (versions_of self.old image) }
        ensures in_memory { self.new.memtable.versions ≡ place_in (version_cmp (direction_of self.old)) (as_version key.now sequence (option_map (λ v. v.now) put.entry)) self.old.memtable.versions }
        ensures direction { self.new.memtable.direction ≡ self.old.memtable.direction }
        ensures entries { self.new.memtable.entries + 1 ≡ self.old.memtable.entries }
        ensures bytes { self.new.memtable.bytes + (length key.now + length (unwrap_or (option_map (λ v. v.now) put.entry) [])) ≡ self.old.memtable.bytes }
        ensures levels { self.new.levels ≡ self.old.levels }
        ensures cached { self.new.cached ≡ self.old.cached }
    {
        place_in_first_child();
        self.memtable.insert(key, sequence, put);
    }

    /// The newest version of a key that isn't past a number, deletions included, None where there is none. It looks into the memtable,
    /// and of the runs into those alone in which the key can stand by its first and last key: of each level behind the newest runs that
    /// is one at the most. What it read is held for the next look-up. Takes memory.
    pub fn get<D: Disk>(
        &mut self,
        alloc: Global,
        disk: &mut D,
        key: &[u8],
        at: u64,
    ) -> Result<Option<Found>, Stop>
        ensures found { Tells (D.disk disk.old) → IsWhole self.old (seen (D.disk disk.old)) → IsTrueTo (seen (D.disk disk.old)) self.old → IfOk result (λ o. option_map version_held o ≡ newest at key.now (versions_of self.old (seen (D.disk disk.old)))) }
        ensures memtable { self.new.memtable ≡ self.old.memtable }
        ensures levels { self.new.levels ≡ self.old.levels }
        ensures counts { Counts (reads_of key.now self.old) (bytes_of key.now self.old) 0 (D.disk disk.old) (D.disk disk.new) }
        ensures warm { AreSorted (looked key.now self.old.levels) → IsWarmFor key.now self.old → Counts 0 0 0 (D.disk disk.old) (D.disk disk.new) }
        ensures same { Tells (D.disk disk.old) → Same (D.disk disk.old) (D.disk disk.new) }
        ensures brings { OnOk result (Brings key.now (looked key.now self.old.levels) self.old.cached self.new.cached) }
        ensures stays_true { Tells (D.disk disk.old) → AreGapless (runs self.old.levels) → IsTrueTo (seen (D.disk disk.old)) self.old → IsTrueTo (seen (D.disk disk.old)) self.new }
        ensures others { (file : ℕ) (bytes : List ℕ) → AllByRecursion (λ live. file ≢ live) (files self.old) → AgreesWith file bytes self.old.cached → AgreesWith file bytes self.new.cached }
        ensures stops { IfErr result (MayStop (HasKeyOffence key.now (looked key.now self.old.levels)) (D.disk disk.old) (D.disk disk.new)) }
    {
        // Two calls that read nothing tell what the parts know of themselves: their order, and that at most 1,024 blocks are held.
        are_in_order(&self.memtable, &self.levels);
        let _held = self.cache.len();
        let found = match self.levels.find(alloc, disk, &mut self.cache, key, at) {
            Ok(found) => found,
            Err(stop) => return Err(stop),
        };
        later_in_memory(alloc, &self.memtable, key, at, found)
    }

    /// A cursor over the versions that stand at a number, at the end until its first seek. It reads past the blocks that are held. Takes
    /// memory.
    pub fn cursor<'a>(&'a self, alloc: Global, at: u64) -> Result<FamilyCursor<'a>, Memory>
        ensures state { IfOk result (λ c. ⟦<FamilyCursor<'a> as Listed>⟧.cursor c ≡ cursor_at at self.now) }
        ensures view { IfOk result (λ c. IsViewAt at self.now (⟦<FamilyCursor<'a> as Listed>⟧.cursor c)) }
        ensures whole { (image : Image) → IsWhole self.now image → IfOk result (λ c. ⟦<FamilyCursor<'a> as Listed>⟧.whole c image) }
        ensures offends { (image : Image) (file place : ℕ) → IfOk result (λ c. ⟦<FamilyCursor<'a> as Listed>⟧.offends c image file place → HasOffence self.now.levels image file place) }
    {
        let direction = self.levels.direction();
        let parts = part_cursors(alloc, &self.memtable, &self.levels)?;
        let merge = Merge::new(parts, direction)?;
        Ok(AtSnapshot::new(alloc, merge, at))
    }

    /// Writes all versions in memory as one run into a file, opens it and adds it to the newest runs; then none is left in memory, nor
    /// room for any. Where there are none it answers None, and neither memory nor the disk is touched. The file's number is to be above
    /// those of all runs. What is held of the runs stays. Takes memory; after an error the family is as before, and the file may have
    /// any bytes.
    pub fn flush_unit<D: Disk>(
        &mut self,
        alloc: Global,
        disk: &mut D,
        file: u64,
    ) -> Result<Option<RunInfo>, Stop>
        ensures flush { IfOk result (IsFlush file (D.disk disk.old) (D.disk disk.new) self.old.memtable self.new.memtable self.old.levels self.new.levels) }
        ensures empty { self.old.memtable.versions ≡ [] → result ≡ Ok None }
        ensures untouched { self.old.memtable.versions ≡ [] → D.disk disk.new ≡ D.disk disk.old }
        ensures same { self.old.memtable.versions ≡ [] → self.new ≡ self.old }
        ensures unchanged { OnErr result (self.new ≡ self.old) }
        ensures cached { self.new.cached ≡ self.old.cached }
        ensures flushes { Flushes file (D.disk disk.old) (D.disk disk.new) }
        ensures stops { IfErr result (FlushStops file (D.disk disk.old) (D.disk disk.new)) }
        ensures versions { Tells (D.disk disk.old) → AreBefore file (files self.old) → versions_of self.new (seen (D.disk disk.new)) ≡ versions_of self.old (seen (D.disk disk.old)) }
        ensures whole { Tells (D.disk disk.old) → AreBefore file (files self.old) → IsWhole self.old (seen (D.disk disk.old)) → IsWhole self.new (seen (D.disk disk.new)) }
        ensures held { Tells (D.disk disk.old) → AreBefore file (files self.old) → ((bytes : List ℕ) → AgreesWith file bytes self.old.cached) → IsTrueTo (seen (D.disk disk.old)) self.old → IsTrueTo (seen (D.disk disk.new)) self.new }
    {
        flush(alloc, disk, &mut self.memtable, &mut self.levels, file)
    }

    /// The live runs with their levels, files and first and last keys: the newest ones first, then level by level. Takes memory.
    pub fn spans(&self, alloc: Global) -> Result<SpanList, Memory>
        ensures { IfOk result (λ s. s ≡ spans_of_levels self.now.levels) }
    {
        self.levels.spans(alloc)
    }
}
