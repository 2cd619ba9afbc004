//! A search of one version.
ghost use Rattle.std.specs.Prelude.{◌≡◌, ℕ, IsTrue, IsSome, IfOk, IfErr, IfSome, OnErr, None, true, cond, not, nat_lt};
ghost use Rattle.mr_base.specs.Disk.{Tells, Image, seen};
ghost use Rattle.mr_base.specs.Calls.{Same, Counts, Reads};
ghost use Rattle.mr_iter.specs.Cursors.{MayStop, SameList};
ghost use Rattle.mr_iter.specs.Newest.{newest, is_of};

use crate::cursor::{Cursor, Listed};
use mr_base::{Disk, Stop};

/// Whether the version that it stands on is of this key.
fn is_on<C: Listed>(cursor: &C, key: &[u8]) -> bool
    requires { IsSome (C.cursor cursor.now).current }
    ensures { IfSome (C.cursor cursor.now).current (λ v. result ≡ is_of key.now v) }
{
    key.cmp(cursor.key()).is_eq()
}

/// Whether it isn't past this number.
fn is_upto<C: Listed>(cursor: &C, number: u64) -> bool
    requires { IsSome (C.cursor cursor.now).current }
    ensures { IfSome (C.cursor cursor.now).current (λ v. result ≡ not (nat_lt number v.sequence)) }
{
    !(cursor.sequence() > number)
}

/// Goes to the newest version of a key that isn't past a number, deletions included; false where there is none. Takes memory.
pub fn seek_newest<D: Disk, C: Cursor<D>>(
    disk: &mut D,
    cursor: &mut C,
    key: &[u8],
    number: u64,
) -> Result<bool, Stop>
    ensures list { SameList (C.cursor cursor.old) (C.cursor cursor.new) }
    ensures counts { Counts (C.cursor cursor.new).reads (C.cursor cursor.new).asked 0 (D.disk disk.old) (D.disk disk.new) }
    ensures same { Tells (D.disk disk.old) → Same (D.disk disk.old) (D.disk disk.new) }
    ensures stops { IfErr result (MayStop (C.offends cursor.old) (D.disk disk.old) (D.disk disk.new)) }
    ensures offends { (image : Image) (file at : ℕ) → C.offends cursor.new image file at → C.offends cursor.old image file at }
    ensures whole { Tells (D.disk disk.old) → C.whole cursor.old (seen (D.disk disk.old)) → C.whole cursor.new (seen (D.disk disk.old)) }
    ensures at_end { OnErr result ((C.cursor cursor.new).current ≡ None) }
    ensures stands { IfOk result (λ found. found ≡ true → IsSome (C.cursor cursor.new).current) }
    ensures found { Tells (D.disk disk.old) → C.whole cursor.old (seen (D.disk disk.old)) → IfOk result (λ found. cond found (C.cursor cursor.new).current None ≡ newest number key.now ((C.cursor cursor.old).versions (seen (D.disk disk.old)))) }
    ensures sought { IfOk result (λ found. IsTrue ((C.cursor cursor.new).sought key.now)) }
    ensures steady { Tells (D.disk disk.old) → C.whole cursor.old (seen (D.disk disk.old)) → IfOk result (λ found. C.steady cursor.new (seen (D.disk disk.old))) }
    ensures spent { Tells (D.disk disk.old) → C.whole cursor.old (seen (D.disk disk.old)) → IsTrue ((C.cursor cursor.old).distinct (seen (D.disk disk.old))) → OnErr result (Reads ((C.cursor cursor.old).reads_to (seen (D.disk disk.old)) key.now None) ((C.cursor cursor.old).asked_to (seen (D.disk disk.old)) key.now None) (D.disk disk.old) (D.disk disk.new)) }
{
    match cursor.seek(disk, key) {
        Ok(()) => {}
        Err(stop) => return Err(stop),
    }
    'looking: while !cursor.at_end() {
        if !is_on::<C>(cursor, key) {
            return Ok(false);
        }
        if is_upto::<C>(cursor, number) {
            return Ok(true);
        }
        match cursor.next(disk) {
            Ok(()) => {}
            Err(stop) => return Err(stop),
        }
    }
    Ok(false)
}
