//! The live runs of a family.
ghost use Rattle.std.specs.Prelude.{◌≡◌, ◌<◌, ◌≤◌, ◌+◌, ◌-◌, length, get_or, [], IfOk, IfErr, OnOk, OnErr};
ghost use Rattle.mr_base.specs.Disk.{Tells, seen};
ghost use Rattle.mr_base.specs.Calls.{Same, Counts, Reads};
ghost use Rattle.mr_run_file.specs.Reading.{footer_number};
ghost use Rattle.mr_run_open.specs.Runs.{OpenStops};
ghost use Rattle.std.specs.Option.{option_map};
ghost use Rattle.mr_iter.specs.Cursors.{MayStop};
ghost use Rattle.mr_iter.specs.Newest.{latest};
ghost use Rattle.mr_block.specs.Held.{version_held};
ghost use Rattle.mr_levels.specs.Levels.{runs, no_runs, AreKept, AreWhole};
ghost use Rattle.mr_levels.specs.Opened.{IsOpened};
ghost use Rattle.mr_levels.specs.Looks.{looked, newest_in_each, AgreeWith, Spends, Brings, HasKeyOffence};
ghost use Rattle.mr_levels.specs.Spans.{spans_of_levels};

use crate::look_up::{find_deeper, find_in};
use crate::opening::{add_deeper, add_newest, no_levels};
use crate::spans::{add_deeper_spans, add_spans};
use mr_base::{Direction, Disk, Memory, Stop};
use mr_block::Found;
use mr_block_cache::BlockCache;
use mr_compact::SpanList;
use mr_iter::RunInfo;
use mr_run_open::Run;
use sqlite_items::Items;
use std::alloc::Global;
use std::marker::Model;

/// The newest runs, the one of the greatest file number first; and those of levels 1 to 4, each level's by their last keys in the
/// direction.
#[derive(Drop)]
pub struct Levels {
    direction: Direction,
    newest: Vec<Run>,
    deeper: Vec<Vec<Run>>,
}

impl Model for Levels {
    ghost use Rattle.std.specs.Prelude.{map};
    ghost use Rattle.mr_levels.specs.Levels.{LevelsState, AreKept};

    ghost Value = { LevelsState };

    ghost view = { λ l. record { direction = l.direction; newest = l.newest.items; deeper = map (λ rs. rs.items) l.deeper.items } };

    ghost invariant = { λ l. AreKept l.direction l.newest.items (map (λ rs. rs.items) l.deeper.items) };
}

impl Levels {
    /// No run. Takes memory.
    pub fn new(alloc: Global, direction: Direction) -> Result<Levels, Memory>
        ensures { IfOk result (λ l. l ≡ no_runs direction) }
    {
        let deeper = no_levels(alloc)?;
        Ok(Levels {
            direction,
            newest: Vec::new(alloc),
            deeper,
        })
    }

    /// The direction of all runs; they are kept in their order.
    pub fn direction(&self) -> Direction
        ensures direction { result ≡ self.now.direction }
        ensures kept { AreKept self.now.direction self.now.newest self.now.deeper }
    {
        self.direction
    }

    /// The newest runs, the newest first.
    pub fn newest(&self) -> &[Run]
        ensures { result.now ≡ self.now.newest }
    {
        &self.newest
    }

    /// The runs of a level from 1 to 4, by their last keys.
    pub fn level(&self, level: usize) -> &[Run]
        requires low { 0 < level }
        requires high { level ≤ 4 }
        ensures { result.now ≡ get_or self.now.deeper (level - 1) [] }
    {
        &self.deeper[level - 1]
    }

    /// Opens a run and adds it to a level: 0 for the newest ones, or 1 to 4. Its structure is judged, none of its blocks is. Whether it
    /// overlaps another run of the level isn't judged: then the levels aren't whole. Takes memory; after an error nothing has changed.
    pub fn open_run<D: Disk>(
        &mut self,
        alloc: Global,
        disk: &mut D,
        level: u8,
        info: &RunInfo,
    ) -> Result<(), Stop>
        requires { level ≤ 4 }
        ensures opened { IfOk result (λ u. IsOpened level info.now (D.disk disk.old) self.old self.new) }
        ensures unchanged { OnErr result (self.new ≡ self.old) }
        ensures stops { IfErr result (OpenStops info.now.file info.now.length info.now.entries (D.disk disk.old) (D.disk disk.new)) }
        ensures counts { Counts 2 info.now.length 0 (D.disk disk.old) (D.disk disk.new) }
        ensures asked { Tells (D.disk disk.old) → Reads 2 (40 + footer_number 1 (seen (D.disk disk.old) info.now.file)) (D.disk disk.old) (D.disk disk.new) }
        ensures same { Tells (D.disk disk.old) → Same (D.disk disk.old) (D.disk disk.new) }
    {
        let run = match Run::open(alloc, disk, info, self.direction) {
            Ok(run) => run,
            Err(stop) => return Err(stop),
        };
        if level == 0 {
            add_newest(&mut self.newest, run)?;
        } else {
            add_deeper(&mut self.deeper, self.direction, level as usize - 1, run)?;
        }
        Ok(())
    }
    /// The newest version of a key that isn't past a number, deletions included, None where no run has one. It looks into each of the
    /// newest runs and one run of each level behind them in which the key can stand by its first and last key, and into no other; the
    /// blocks in which it can stand go to the front of the cache, run by run. Takes memory.
    pub fn find<D: Disk>(
        &self,
        alloc: Global,
        disk: &mut D,
        cache: &mut BlockCache,
        key: &[u8],
        number: u64,
    ) -> Result<Option<Found>, Stop>
        ensures found { Tells (D.disk disk.old) → AreWhole self.now (seen (D.disk disk.old)) → AgreeWith (seen (D.disk disk.old)) cache.old (runs self.now) → IfOk result (λ o. option_map version_held o ≡ latest (newest_in_each number key.now (seen (D.disk disk.old)) (runs self.now))) }
        ensures spends { Spends key.now (looked key.now self.now) (D.disk disk.old) (D.disk disk.new) cache.old cache.new }
        ensures brings { OnOk result (Brings key.now (looked key.now self.now) cache.old cache.new) }
        ensures stops { IfErr result (MayStop (HasKeyOffence key.now (looked key.now self.now)) (D.disk disk.old) (D.disk disk.new)) }
    {
        let found = match find_in(
            alloc,
            self.direction,
            &self.newest,
            disk,
            cache,
            key,
            number,
            None,
        ) {
            Ok(found) => found,
            Err(stop) => return Err(stop),
        };
        find_deeper(
            alloc,
            self.direction,
            &self.deeper,
            disk,
            cache,
            key,
            number,
            found,
        )
    }

    /// The live runs with their levels, files and first and last keys: the newest ones first, then level by level. Takes memory.
    pub fn spans(&self, alloc: Global) -> Result<SpanList, Memory>
        ensures { IfOk result (λ s. s ≡ spans_of_levels self.now) }
    {
        let mut spans = Items::new(alloc);
        add_spans(alloc, &mut spans, 0, &self.newest)?;
        add_deeper_spans(alloc, &mut spans, &self.deeper)?;
        Ok(spans)
    }
}
