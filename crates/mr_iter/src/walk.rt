//! Steps of one cursor, and what they lead to as one relation.
ghost use Rattle.std.specs.Prelude.{◌≡◌, ◌<◌, IsTrue, IsSome, IfSome, IfErr, OnOk, Bool, false};
ghost use Rattle.std.specs.Ordering.{is_lt};
ghost use Rattle.mr_base.specs.Disk.{Tells, seen};
ghost use Rattle.mr_iter.specs.Versions.{Version, key_cmp, from_key};
ghost use Rattle.mr_iter.specs.Cursors.{left, MayStop};
ghost use Rattle.mr_iter.specs.Walks.{Walk};

use crate::cursor::{Cursor, Listed};
use crate::order::compare_keys;
use mr_base::{Direction, Disk, Stop};

/// Goes one version on. Takes memory.
pub fn step<D: Disk, C: Cursor<D>>(disk: &mut D, cursor: &mut C) -> Result<(), Stop>
    requires { IsSome (C.cursor cursor.old).current }
    ensures walk { (p : Version → Bool) → IfSome (C.cursor cursor.old).current (λ v. IsTrue (p v)) → Walk p (C.offends cursor.old) (C.offends cursor.new) (C.whole cursor.old) (C.whole cursor.new) (C.steady cursor.old) (C.steady cursor.new) (C.cursor cursor.old) (C.cursor cursor.new) (D.disk disk.old) (D.disk disk.new) }
    ensures stops { IfErr result (MayStop (C.offends cursor.old) (D.disk disk.old) (D.disk disk.new)) }
    ensures steps { OnOk result ((C.cursor cursor.new).steps < (C.cursor cursor.old).steps) }
    ensures moved { Tells (D.disk disk.old) → C.whole cursor.old (seen (D.disk disk.old)) → OnOk result (left (C.cursor cursor.new) (seen (D.disk disk.old)) ≡ (C.cursor cursor.old).rest (seen (D.disk disk.old))) }
{
    cursor.next(disk)
}

/// Whether the key of the version that it stands on comes before this key.
pub fn is_before<C: Listed>(direction: Direction, cursor: &C, key: &[u8]) -> bool
    requires { IsSome (C.cursor cursor.now).current }
    ensures { IfSome (C.cursor cursor.now).current (λ v. result ≡ is_lt (key_cmp direction v.key key.now)) }
{
    compare_keys(direction, cursor.key(), key).is_lt()
}

/// Goes on to the first version whose key isn't before this key, over those that are. Takes memory.
pub fn walk_to<D: Disk, C: Cursor<D>>(
    disk: &mut D,
    cursor: &mut C,
    direction: Direction,
    key: &[u8],
) -> Result<(), Stop>
    requires { direction ≡ (C.cursor cursor.old).direction }
    ensures walk { Walk (λ v. is_lt (key_cmp direction v.key key.now)) (C.offends cursor.old) (C.offends cursor.new) (C.whole cursor.old) (C.whole cursor.new) (C.steady cursor.old) (C.steady cursor.new) (C.cursor cursor.old) (C.cursor cursor.new) (D.disk disk.old) (D.disk disk.new) }
    ensures stops { IfErr result (MayStop (C.offends cursor.old) (D.disk disk.old) (D.disk disk.new)) }
    ensures reached { OnOk result (IfSome (C.cursor cursor.new).current (λ v. is_lt (key_cmp direction v.key key.now) ≡ false)) }
    ensures left { Tells (D.disk disk.old) → C.whole cursor.old (seen (D.disk disk.old)) → OnOk result (left (C.cursor cursor.new) (seen (D.disk disk.old)) ≡ from_key direction key.now (left (C.cursor cursor.old) (seen (D.disk disk.old)))) }
{
    'walking: while !cursor.at_end() {
        if !is_before::<C>(direction, cursor, key) {
            return Ok(());
        }
        match step::<D, C>(disk, cursor) {
            Ok(()) => {}
            Err(stop) => return Err(stop),
        }
    }
    Ok(())
}
