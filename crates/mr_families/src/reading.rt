//! Runs that are opened, and look-ups.
ghost use Rattle.std.specs.Prelude.{◌≡◌, ◌≢◌, ◌≤◌, ◌+◌, ℕ, List, length, true, IfOk, IfErr, OnOk, OnErr};
ghost use Rattle.std.specs.Option.{option_map};
ghost use Rattle.std.specs.List.{AllByRecursion};
ghost use Rattle.mr_base.specs.Disk.{Tells, seen};
ghost use Rattle.mr_base.specs.Calls.{Same, Counts, Reads};
ghost use Rattle.mr_iter.specs.Cursors.{MayStop};
ghost use Rattle.mr_iter.specs.Newest.{newest};
ghost use Rattle.mr_block.specs.Held.{version_held};
ghost use Rattle.mr_block_cache.specs.Cache.{AgreesWith};
ghost use Rattle.mr_run_file.specs.Reading.{footer_number};
ghost use Rattle.mr_run_open.specs.Runs.{OpenStops};
ghost use Rattle.mr_levels.specs.Levels.{runs};
ghost use Rattle.mr_levels.specs.Opened.{IsOpened};
ghost use Rattle.mr_levels.specs.Looks.{looked, Brings, HasKeyOffence, AreSorted, AreGapless};
ghost use Rattle.mr_family.specs.Family.{files, versions, IsWhole, IsTrueTo, reads_of, bytes_of, IsWarmFor};
ghost use Rattle.mr_families.specs.Known.{AreKept, family_at, is_known};
ghost use Rattle.mr_families.specs.Changed.{OnlyAt};

use crate::numbered::Numbered;
use crate::places::place_of;
use mr_base::{Disk, Stop};
use mr_block::Found;
use mr_iter::RunInfo;
use std::alloc::Global;

/// Opens a run of a family that is known. Takes memory; after an error nothing has changed.
pub fn open_in<D: Disk>(
    list: &mut Vec<Numbered>,
    alloc: Global,
    disk: &mut D,
    number: u32,
    level: u8,
    info: &RunInfo,
) -> Result<(), Stop>
    requires kept { AreKept list.old.items }
    requires known { is_known list.old.items number ≡ true }
    requires level { level ≤ 4 }
    ensures kept { AreKept list.new.items }
    ensures only { OnlyAt number list.old.items list.new.items }
    ensures opened { IfOk result (λ u. IsOpened level info.now (D.disk disk.old) (family_at list.old.items number).levels (family_at list.new.items number).levels) }
    ensures unchanged { OnErr result ((family_at list.new.items number).levels ≡ (family_at list.old.items number).levels) }
    ensures memtable { (family_at list.new.items number).memtable ≡ (family_at list.old.items number).memtable }
    ensures cached { (family_at list.new.items number).cached ≡ (family_at list.old.items number).cached }
    ensures stops { IfErr result (OpenStops info.now.file info.now.length info.now.entries (D.disk disk.old) (D.disk disk.new)) }
    ensures counts { Counts 2 info.now.length 0 (D.disk disk.old) (D.disk disk.new) }
    ensures asked { Tells (D.disk disk.old) → Reads 2 (40 + footer_number 1 (seen (D.disk disk.old) info.now.file)) (D.disk disk.old) (D.disk disk.new) }
    ensures same { Tells (D.disk disk.old) → Same (D.disk disk.old) (D.disk disk.new) }
{
    match place_of(list, number) {
        Ok(place) => list[place].open_run(alloc, disk, level, info),
        // No number that is known comes here.
        Err(_) => Ok(()),
    }
}

/// Looks a key up in a family; where its number isn't known there is none, and no call. Takes memory.
pub fn get_in<D: Disk>(
    list: &mut Vec<Numbered>,
    alloc: Global,
    disk: &mut D,
    number: u32,
    key: &[u8],
    at: u64,
) -> Result<Option<Found>, Stop>
    requires { AreKept list.old.items }
    ensures kept { AreKept list.new.items }
    ensures only { OnlyAt number list.old.items list.new.items }
    ensures found { Tells (D.disk disk.old) → IsWhole (family_at list.old.items number) (seen (D.disk disk.old)) → IsTrueTo (seen (D.disk disk.old)) (family_at list.old.items number) → IfOk result (λ o. option_map version_held o ≡ newest at key.now (versions (family_at list.old.items number) (seen (D.disk disk.old)))) }
    ensures memtable { (family_at list.new.items number).memtable ≡ (family_at list.old.items number).memtable }
    ensures levels { (family_at list.new.items number).levels ≡ (family_at list.old.items number).levels }
    ensures counts { Counts (reads_of key.now (family_at list.old.items number)) (bytes_of key.now (family_at list.old.items number)) 0 (D.disk disk.old) (D.disk disk.new) }
    ensures few { reads_of key.now (family_at list.old.items number) ≤ length (family_at list.old.items number).levels.newest + 4 }
    ensures warm { AreSorted (looked key.now (family_at list.old.items number).levels) → IsWarmFor key.now (family_at list.old.items number) → Counts 0 0 0 (D.disk disk.old) (D.disk disk.new) }
    ensures same { Tells (D.disk disk.old) → Same (D.disk disk.old) (D.disk disk.new) }
    ensures brings { OnOk result (Brings key.now (looked key.now (family_at list.old.items number).levels) (family_at list.old.items number).cached (family_at list.new.items number).cached) }
    ensures stays_true { Tells (D.disk disk.old) → AreGapless (runs (family_at list.old.items number).levels) → IsTrueTo (seen (D.disk disk.old)) (family_at list.old.items number) → IsTrueTo (seen (D.disk disk.old)) (family_at list.new.items number) }
    ensures others { (file : ℕ) (bytes : List ℕ) → AllByRecursion (λ live. file ≢ live) (files (family_at list.old.items number)) → AgreesWith file bytes (family_at list.old.items number).cached → AgreesWith file bytes (family_at list.new.items number).cached }
    ensures stops { IfErr result (MayStop (HasKeyOffence key.now (looked key.now (family_at list.old.items number).levels)) (D.disk disk.old) (D.disk disk.new)) }
{
    match place_of(list, number) {
        Ok(place) => list[place].family.get(alloc, disk, key, at),
        Err(_) => Ok(None),
    }
}
