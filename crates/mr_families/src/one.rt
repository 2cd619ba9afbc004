//! The calls of one family under its number.
ghost use Rattle.std.specs.Prelude.{◌≡◌, ◌≤◌, ◌<◌, ◌+◌, ◌∷◌, [], List, IfOk, IfErr, OnOk, OnErr};
ghost use Rattle.mr_base.specs.Disk.{Tells, seen};
ghost use Rattle.mr_base.specs.Calls.{Same, Counts, Reads};
ghost use Rattle.mr_run_file.specs.Reading.{footer_number};
ghost use Rattle.mr_run_open.specs.Runs.{OpenStops};
ghost use Rattle.mr_levels.specs.Opened.{IsOpened};
ghost use Rattle.mr_wal.specs.declared.operation.Operation.{Operation};
ghost use Rattle.mr_families.specs.Known.{IsTold};
ghost use Rattle.mr_families.specs.Changed.{without_room};
ghost use Rattle.mr_families.specs.Batches.{size_of, Takes};
ghost use Rattle.mr_families.specs.Rooms.{IsNeed, HasRoom};

use crate::need::Need;
use crate::numbered::Numbered;
use mr_base::{Disk, Memory, Stop};
use mr_iter::RunInfo;
use mr_wal::Operation;
use std::alloc::Global;

impl Numbered {
    /// Opens a run and adds it to a level. Takes memory; after an error nothing has changed.
    pub fn open_run<D: Disk>(
        &mut self,
        alloc: Global,
        disk: &mut D,
        level: u8,
        info: &RunInfo,
    ) -> Result<(), Stop>
        requires told { IsTold self.old }
        requires level { level ≤ 4 }
        ensures told { IsTold self.new }
        ensures number { self.new.number ≡ self.old.number }
        ensures opened { IfOk result (λ u. IsOpened level info.now (D.disk disk.old) self.old.family.levels self.new.family.levels) }
        ensures unchanged { OnErr result (self.new.family.levels ≡ self.old.family.levels) }
        ensures memtable { self.new.family.memtable ≡ self.old.family.memtable }
        ensures cached { self.new.family.cached ≡ self.old.family.cached }
        ensures stops { IfErr result (OpenStops info.now.file info.now.length info.now.entries (D.disk disk.old) (D.disk disk.new)) }
        ensures counts { Counts 2 info.now.length 0 (D.disk disk.old) (D.disk disk.new) }
        ensures asked { Tells (D.disk disk.old) → Reads 2 (40 + footer_number 1 (seen (D.disk disk.old) info.now.file)) (D.disk disk.old) (D.disk disk.new) }
        ensures same { Tells (D.disk disk.old) → Same (D.disk disk.old) (D.disk disk.new) }
    {
        match self.family.open_run(alloc, disk, level, info) {
            Ok(()) => {
                self.is_fresh = false;
                Ok(())
            }
            Err(stop) => Err(stop),
        }
    }

    /// Makes room, where any is needed. Takes memory; after an error the room is what it was.
    pub fn reserve(&mut self, need: Need) -> Result<(), Memory>
        requires { IsTold self.old }
        ensures told { IsTold self.new }
        ensures number { self.new.number ≡ self.old.number }
        ensures same { without_room self.new.family ≡ without_room self.old.family }
        ensures room { (os : List Operation) → IsNeed self.old.number os need → OnOk result (HasRoom os self.new) }
    {
        if need.entries == 0 && need.bytes == 0 {
            return Ok(());
        }
        self.family.reserve(need.entries, need.bytes)
    }

    /// Adds an operation of its own, for which it has room.
    pub fn insert(&mut self, operation: &Operation, sequence: u64)
        requires told { IsTold self.old }
        requires own { operation.now.family ≡ self.old.number }
        requires entries { 0 < self.old.family.memtable.entries }
        requires bytes { size_of operation.now ≤ self.old.family.memtable.bytes }
        ensures told { IsTold self.new }
        ensures number { self.new.number ≡ self.old.number }
        ensures takes { Takes self.old.number sequence (operation.now ∷ []) self.old.family self.new.family }
    {
        let item = operation.lend();
        self.family.insert(item.key, sequence, item.put);
        self.in_memory = true;
        self.is_fresh = false;
    }
}
