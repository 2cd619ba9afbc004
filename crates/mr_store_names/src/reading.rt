//! The names in family 0.
ghost use Rattle.std.specs.Prelude.{◌≡◌, ◌^◌, [], true, None, IsSome, IfSome, IfOk, IfErr, OnOk, Err};
ghost use Rattle.mr_base.specs.Disk.{Tells, HasRisen, seen};
ghost use Rattle.mr_base.specs.Calls.{Rises, Same};
ghost use Rattle.mr_base.specs.declared.stop.Direction.TheVariants.{Forward};
ghost use Rattle.mr_base.specs.declared.stop.Stop.TheVariants.{Memory as MemoryStop, Disk as DiskStop};
ghost use Rattle.mr_iter.specs.Cursors.{MayStop, left};
ghost use Rattle.mr_iter.specs.Walks.{Walk};
ghost use Rattle.mr_levels.specs.Levels.{HasOffence};
ghost use Rattle.mr_family.specs.Family.{IsWhole, versions, direction as direction_of};
ghost use Rattle.mr_store_names.specs.Named.{Adds, Told, AreNames};

use crate::name::{Name, name_of};
use mr_base::{Disk, Stop};
use mr_family::Family;
use mr_iter::{Cursor, Listed, step, view_has_newest};
use std::alloc::Global;

/// Adds the name of the version that the cursor stands on, where it has one. Takes memory.
fn take_version<C: Listed>(cursor: &C, names: &mut Vec<Name>) -> Result<(), Stop>
    requires { IsSome (C.cursor cursor.now).current }
    ensures taken { IfSome (C.cursor cursor.now).current (λ v. OnOk result (Adds v names.old.items names.new.items)) }
    ensures stops { IfErr result (λ stop. stop ≡ MemoryStop) }
{
    let Some(name) = name_of(cursor.key(), cursor.is_put(), cursor.value()) else {
        return Ok(());
    };
    match names.push(name) {
        Ok(()) => Ok(()),
        Err(_) => Err(Stop::Memory),
    }
}

/// The names of what is left of a cursor's list. Takes memory.
fn read_all<D: Disk, C: Cursor<D>>(
    alloc: Global,
    disk: &mut D,
    cursor: &mut C,
) -> Result<Vec<Name>, Stop>
    ensures told { Tells (D.disk disk.old) → C.whole cursor.old (seen (D.disk disk.old)) → IfOk result (λ names. Told (left (C.cursor cursor.old) (seen (D.disk disk.old))) names.items) }
    ensures stops { IfErr result (MayStop (C.offends cursor.old) (D.disk disk.old) (D.disk disk.new)) }
    ensures walk { Walk (λ v. true) (C.offends cursor.old) (C.offends cursor.new) (C.whole cursor.old) (C.whole cursor.new) (C.steady cursor.old) (C.steady cursor.new) (C.cursor cursor.old) (C.cursor cursor.new) (D.disk disk.old) (D.disk disk.new) }
{
    let mut names = Vec::new(alloc);
    'reading: while !cursor.at_end() {
        match take_version::<C>(cursor, &mut names) {
            Ok(()) => {}
            Err(_) => return Err(Stop::Memory),
        }
        match step::<D, C>(disk, cursor) {
            Ok(()) => {}
            Err(stop) => return Err(stop),
        }
    }
    Ok(names)
}

/// The names of a cursor's list. Takes memory.
fn read_from_front<D: Disk, C: Cursor<D>>(
    alloc: Global,
    disk: &mut D,
    cursor: &mut C,
) -> Result<Vec<Name>, Stop>
    ensures told { Tells (D.disk disk.old) → C.whole cursor.old (seen (D.disk disk.old)) → (C.cursor cursor.old).direction ≡ Forward → IfOk result (λ names. Told ((C.cursor cursor.old).versions (seen (D.disk disk.old))) names.items) }
    ensures stops { IfErr result (MayStop (C.offends cursor.old) (D.disk disk.old) (D.disk disk.new)) }
    ensures rises { Rises 0 (D.disk disk.old) (D.disk disk.new) }
    ensures same { Tells (D.disk disk.old) → Same (D.disk disk.old) (D.disk disk.new) }
{
    match cursor.seek(disk, &[]) {
        Ok(()) => {}
        Err(stop) => return Err(stop),
    }
    read_all::<D, C>(alloc, disk, cursor)
}

/// The families, from 2 on, that family 0 names; its keys are in forward order. All its blocks are read and judged. Takes memory.
pub fn read_names<D: Disk>(alloc: Global, disk: &mut D, system: &Family) -> Result<Vec<Name>, Stop>
    ensures rises { Rises 0 (D.disk disk.old) (D.disk disk.new) }
    ensures same { Tells (D.disk disk.old) → Same (D.disk disk.old) (D.disk disk.new) }
    ensures named { Tells (D.disk disk.old) → IsWhole system.now (seen (D.disk disk.old)) → direction_of system.now ≡ Forward → IfOk result (λ names. AreNames (versions system.now (seen (D.disk disk.old))) names.items) }
    ensures stops { IfErr result (MayStop (HasOffence system.now.levels) (D.disk disk.old) (D.disk disk.new)) }
    ensures failed { result ≡ Err DiskStop → HasRisen (D.disk disk.old).faults (D.disk disk.new).faults }
{
    view_has_newest();
    let mut cursor = system.cursor(alloc, 1 << 63)?;
    read_from_front(alloc, disk, &mut cursor)
}
