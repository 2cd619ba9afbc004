//! Loading the dictionary from a cursor over the family `__system__`.

ghost use Rattle.std.specs.Prelude.{◌≡◌, true, None, IsSome, IfSome, IfOk, IfErr, OnOk, Some};
ghost use Rattle.mr_base.specs.Disk.{Tells, seen};
ghost use Rattle.mr_base.specs.declared.stop.Direction.TheVariants.{Forward};
ghost use Rattle.mr_iter.specs.Cursors.{left};
ghost use Rattle.mr_iter.specs.Walks.{Walk};
ghost use Rattle.mr_dict.specs.Given.{passed_key};
ghost use Rattle.mr_dict.specs.Loading.{newest_puts, dictionary_of, AreEntries, IsPut, IsNoEntry, TakesIn, StopsAt, LoadStops};

use crate::dict::Dict;
use crate::passed::Passed;
use mr_base::{DefAnswer, Disk, Stop};
use mr_dict_entry::read_entry;
use mr_iter::{Cursor, Listed, step};
use std::alloc::Global;

/// Puts in the entry that a key and a value are. Takes memory.
fn put_read(alloc: Global, dict: &mut Dict, key: &[u8], value: &[u8]) -> Result<(), Stop>
    ensures put { OnOk result (IsPut key.now value.now dict.old dict.new) }
    ensures stops { IfErr result (IsNoEntry key.now value.now) }
{
    match read_entry(alloc, key, value) {
        Ok(entry) => {
            dict.put(entry)?;
            Ok(())
        }
        Err(DefAnswer::Memory) => Err(Stop::Memory),
        Err(DefAnswer::Malformed(_)) => Err(Stop::Damaged { file: 0, at: 0 }),
    }
}

/// Takes in the version that the cursor stands on. Takes memory.
fn take_version<C: Listed>(
    alloc: Global,
    cursor: &C,
    passed: &mut Passed,
    dict: &mut Dict,
) -> Result<(), Stop>
    requires { IsSome (C.cursor cursor.now).current }
    ensures taken { IfSome (C.cursor cursor.now).current (λ v. OnOk result (TakesIn (passed_key passed.old) v (passed_key passed.new) dict.old dict.new)) }
    ensures stops { IfSome (C.cursor cursor.now).current (λ v. IfErr result (StopsAt (passed_key passed.old) v)) }
{
    if passed.is_of(cursor.key()) {
        return Ok(());
    }
    passed.set(cursor.key())?;
    if !cursor.is_put() {
        return Ok(());
    }
    put_read(alloc, dict, cursor.key(), cursor.value())
}

/// The dictionary of a cursor's list: the entries of its newest puts. The cursor, which is over the
/// family `__system__`, stands at the beginning of its list. Answers `Disk`, `Damaged` at an offence
/// of the cursor's files, or in file 0 at 0 where a newest put is no entry, or `Memory`.
pub fn load<D: Disk, C: Cursor<D>>(
    alloc: Global,
    disk: &mut D,
    cursor: &mut C,
) -> Result<Dict, Stop>
    requires beginning { Tells (D.disk disk.old) → C.whole cursor.old (seen (D.disk disk.old)) → left (C.cursor cursor.old) (seen (D.disk disk.old)) ≡ (C.cursor cursor.old).versions (seen (D.disk disk.old)) }
    ensures loaded { Tells (D.disk disk.old) → C.whole cursor.old (seen (D.disk disk.old)) → IfOk result (λ d. dictionary_of ((C.cursor cursor.old).versions (seen (D.disk disk.old))) ≡ Some d) }
    ensures entries { Tells (D.disk disk.old) → C.whole cursor.old (seen (D.disk disk.old)) → (C.cursor cursor.old).direction ≡ Forward → IfOk result (λ d. AreEntries (newest_puts ((C.cursor cursor.old).versions (seen (D.disk disk.old)))) d) }
    ensures stops { IfErr result (LoadStops (C.offends cursor.old) (C.whole cursor.old) (C.cursor cursor.old).versions (D.disk disk.old) (D.disk disk.new)) }
    ensures walk { Walk (λ v. true) (C.offends cursor.old) (C.offends cursor.new) (C.whole cursor.old) (C.whole cursor.new) (C.steady cursor.old) (C.steady cursor.new) (C.cursor cursor.old) (C.cursor cursor.new) (D.disk disk.old) (D.disk disk.new) }
    ensures at_end { OnOk result ((C.cursor cursor.new).current ≡ None) }
{
    let mut dict = Dict::new(alloc);
    let mut passed = Passed::new(alloc);
    'loading: while !cursor.at_end() {
        take_version::<C>(alloc, cursor, &mut passed, &mut dict)?;
        step::<D, C>(disk, cursor)?;
    }
    Ok(dict)
}
