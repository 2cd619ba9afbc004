//! The versions in memory become one of the newest runs.
ghost use Rattle.std.specs.Prelude.{◌≡◌, [], None, Ok, IfOk, IfErr, OnErr};
ghost use Rattle.mr_flush.specs.Flushed.{IsFlush, Flushes, FlushStops};

use crate::writing::write_memtable;
use mr_base::{Disk, Stop};
use mr_iter::RunInfo;
use mr_levels::Levels;
use mr_memtable::Memtable;
use std::alloc::Global;

/// Writes all versions of a memtable as one run into a file, opens it and adds it to the newest runs; then none is left in memory, nor
/// room for any. Where there are none it answers None, and neither memory nor the disk is touched. Takes memory; after an error memtable
/// and runs are as before, and the file may have any bytes.
pub fn flush<D: Disk>(
    alloc: Global,
    disk: &mut D,
    memtable: &mut Memtable,
    levels: &mut Levels,
    file: u64,
) -> Result<Option<RunInfo>, Stop>
    requires { memtable.old.direction ≡ levels.old.direction }
    ensures flush { IfOk result (IsFlush file (D.disk disk.old) (D.disk disk.new) memtable.old memtable.new levels.old levels.new) }
    ensures empty { memtable.old.versions ≡ [] → result ≡ Ok None }
    ensures untouched { memtable.old.versions ≡ [] → D.disk disk.new ≡ D.disk disk.old }
    ensures same_memtable { memtable.old.versions ≡ [] → memtable.new ≡ memtable.old }
    ensures same_levels { memtable.old.versions ≡ [] → levels.new ≡ levels.old }
    ensures kept_memtable { OnErr result (memtable.new ≡ memtable.old) }
    ensures kept_levels { OnErr result (levels.new ≡ levels.old) }
    ensures direction { memtable.new.direction ≡ levels.new.direction }
    ensures flushes { Flushes file (D.disk disk.old) (D.disk disk.new) }
    ensures stops { IfErr result (FlushStops file (D.disk disk.old) (D.disk disk.new)) }
{
    if memtable.is_empty() {
        return Ok(None);
    }
    let direction = levels.direction();
    let info = write_memtable(alloc, disk, memtable, direction, file)?;
    levels.open_run(alloc, disk, 0, &info)?;
    *memtable = Memtable::new(alloc, direction);
    Ok(Some(info))
}
