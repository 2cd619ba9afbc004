//! The versions of a memtable as one run in a file. One version is held at a time, and what the writer of the run holds.
ghost use Rattle.std.specs.Prelude.{◌≡◌, ◌≢◌, ◌<◌, [], IsSome, IfSome, IfOk, IfErr, OnOk, None};
ghost use Rattle.std.specs.Option.{option_map};
ghost use Rattle.mr_base.specs.Disk.{Tells, file_of};
ghost use Rattle.mr_base.specs.Calls.{Counts};
ghost use Rattle.mr_iter.specs.RunOuts.{KeepsOthers, MayFail};
ghost use Rattle.mr_run_file.specs.Reading.{IsRun};
ghost use Rattle.mr_run_writer.specs.Drafts.{Stands};
ghost use Rattle.mr_compact.specs.Merges.{IsWritten};
ghost use Rattle.mr_flush.specs.Adding.{Adds};

use mr_base::{Direction, Disk, Stop};
use mr_iter::{Cursor, Listed, RunInfo};
use mr_memtable::{MemCursor, Memtable};
use mr_run_writer::RunWriter;
use std::alloc::Global;

/// The value of the version that a cursor stands on, None for a deletion.
fn put_at<'a, C: Listed>(cursor: &'a C) -> Option<&'a [u8]>
    requires { IsSome (C.cursor cursor.now).current }
    ensures { IfSome (C.cursor cursor.now).current (λ v. option_map (λ x. x.now) result ≡ v.put) }
{
    if cursor.is_put() {
        Some(cursor.value())
    } else {
        None
    }
}

/// Adds the version that a cursor stands on to a run, and goes one on. Takes memory.
fn add_one<'a, D: Disk>(
    disk: &mut D,
    cursor: &mut MemCursor<'a>,
    writer: &mut RunWriter,
) -> Result<(), Stop>
    requires on { IsSome (⟦<MemCursor<'a> as Listed>⟧.cursor cursor.old).current }
    requires stands { Tells (D.disk disk.old) → Stands writer.old (file_of (D.disk disk.old) writer.old.buffer.file).bytes }
    ensures counts { Counts 0 0 0 (D.disk disk.old) (D.disk disk.new) }
    ensures stops { IfErr result (MayFail (D.disk disk.old) (D.disk disk.new)) }
    ensures others { Tells (D.disk disk.old) → KeepsOthers writer.old.buffer.file (D.disk disk.old) (D.disk disk.new) }
    ensures steps { OnOk result ((⟦<MemCursor<'a> as Listed>⟧.cursor cursor.new).steps < (⟦<MemCursor<'a> as Listed>⟧.cursor cursor.old).steps) }
    ensures adds { OnOk result (Adds (⟦<MemCursor<'a> as Listed>⟧.cursor cursor.old) (⟦<MemCursor<'a> as Listed>⟧.cursor cursor.new) writer.old writer.new (D.disk disk.old) (D.disk disk.new)) }
{
    let put = put_at(cursor);
    writer.add(disk, cursor.key(), cursor.sequence(), put)?;
    cursor.next(disk)
}

/// Adds the versions from the one on that a cursor stands on. Takes memory.
fn add_all<'a, D: Disk>(
    disk: &mut D,
    cursor: &mut MemCursor<'a>,
    writer: &mut RunWriter,
) -> Result<(), Stop>
    requires stands { Tells (D.disk disk.old) → Stands writer.old (file_of (D.disk disk.old) writer.old.buffer.file).bytes }
    ensures counts { Counts 0 0 0 (D.disk disk.old) (D.disk disk.new) }
    ensures stops { IfErr result (MayFail (D.disk disk.old) (D.disk disk.new)) }
    ensures others { Tells (D.disk disk.old) → KeepsOthers writer.old.buffer.file (D.disk disk.old) (D.disk disk.new) }
    ensures at_end { OnOk result ((⟦<MemCursor<'a> as Listed>⟧.cursor cursor.new).current ≡ None) }
    ensures adds { OnOk result (Adds (⟦<MemCursor<'a> as Listed>⟧.cursor cursor.old) (⟦<MemCursor<'a> as Listed>⟧.cursor cursor.new) writer.old writer.new (D.disk disk.old) (D.disk disk.new)) }
{
    'adding: while !cursor.at_end() {
        add_one(disk, cursor, writer)?;
    }
    Ok(())
}

/// Writes all versions of a memtable, which has some, as one run of its direction into a file, which has no others afterwards; a crash
/// then leaves just what a read gives. One sync. Nothing is read, and no other file changes. Takes memory; after an error the file may
/// have any bytes.
pub fn write_memtable<D: Disk>(
    alloc: Global,
    disk: &mut D,
    memtable: &Memtable,
    direction: Direction,
    file: u64,
) -> Result<RunInfo, Stop>
    requires direction { direction ≡ memtable.now.direction }
    requires some { memtable.now.versions ≢ [] }
    ensures named { IfOk result (λ info. info.file ≡ file) }
    ensures written { Tells (D.disk disk.old) → IfOk result (λ info. IsWritten (IsRun direction) (D.disk disk.new) info memtable.now.versions) }
    ensures counts { Counts 0 0 1 (D.disk disk.old) (D.disk disk.new) }
    ensures stops { IfErr result (MayFail (D.disk disk.old) (D.disk disk.new)) }
    ensures others { Tells (D.disk disk.old) → KeepsOthers file (D.disk disk.old) (D.disk disk.new) }
{
    let mut writer = RunWriter::new(file, direction, alloc);
    let mut cursor = memtable.cursor();
    add_all(disk, &mut cursor, &mut writer)?;
    writer.finish(disk)
}
