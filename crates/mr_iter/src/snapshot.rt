//! The versions that stand at a sequence number.
ghost use Rattle.std.specs.Prelude.{◌≡◌, ◌<◌, ◌≤◌, ◌+◌, ℕ, List, [], Bool, true, false, cond, IsTrue, IsSome, IfSome, IfOk, IfErr, OnOk, OnErr, length, Option, None, Some, is_some, is_none};
ghost use Rattle.mr_base.specs.Disk.{Tells, Image, seen};
ghost use Rattle.mr_base.specs.Calls.{Same, Counts};
ghost use Rattle.mr_iter.specs.Versions.{IsInOrder, version_cmp};
ghost use Rattle.mr_iter.specs.Cursors.{CursorState, left, SameList, CountsStep, MayStop, with_current, IsInPlace, IsWithinEnd};
ghost use Rattle.mr_iter.specs.Snapshots.{shown, key_of, snapshot_state, skip_of, is_hidden, Passes};
ghost use Rattle.mr_iter.specs.SnapshotLaws.{snapshot_in_order, snapshot_by_files, snapshot_going, snapshot_costs, snapshot_to_end};

use crate::cursor::{Cursor, Listed};
use mr_base::{Disk, Stop};
use std::alloc::Global;

/// The key whose older versions are left out.
#[derive(Drop)]
pub struct Skip {
    pub key: Vec<u8>,
    pub is: bool,
}

/// Whether the version that the cursor stands on is left out.
pub fn hides<D: Disk, C: Cursor<D>>(inner: &C, number: u64, skip: &Skip) -> bool
    requires { IsSome (C.cursor inner.now).current }
    ensures { IfSome (C.cursor inner.now).current (λ v. result ≡ is_hidden number (skip_of skip.now) v) }
{
    inner.sequence() > number || (skip.is && skip.key.as_slice().cmp(inner.key()).is_eq())
}

/// Goes past one version that isn't shown; true where it stands on one that is.
pub fn pass<D: Disk, C: Cursor<D>>(
    disk: &mut D,
    inner: &mut C,
    number: u64,
    skip: &mut Skip,
) -> Result<bool, Stop>
    requires { IsSome (C.cursor inner.old).current }
    ensures list { SameList (C.cursor inner.old) (C.cursor inner.new) }
    ensures counts { CountsStep (C.cursor inner.old) (C.cursor inner.new) (D.disk disk.old) (D.disk disk.new) }
    ensures same { Tells (D.disk disk.old) → Same (D.disk disk.old) (D.disk disk.new) }
    ensures stops { IfErr result (MayStop (C.offends inner.old) (D.disk disk.old) (D.disk disk.new)) }
    ensures offends { (image : Image) (file at : ℕ) → C.offends inner.new image file at → C.offends inner.old image file at }
    ensures whole { Tells (D.disk disk.old) → C.whole inner.old (seen (D.disk disk.old)) → C.whole inner.new (seen (D.disk disk.old)) }
    ensures sought { (k : List ℕ) → IsTrue ((C.cursor inner.old).sought k) → IfOk result (λ here. IsTrue ((C.cursor inner.new).sought k)) }
    ensures steady { Tells (D.disk disk.old) → C.whole inner.old (seen (D.disk disk.old)) → C.steady inner.old (seen (D.disk disk.old)) → IfOk result (λ here. C.steady inner.new (seen (D.disk disk.old))) }
    ensures steps { IfOk result (λ here. here ≡ false → (C.cursor inner.new).steps < (C.cursor inner.old).steps) }
    ensures stands { IfOk result (λ here. here ≡ true → IsSome (C.cursor inner.new).current × ((C.cursor inner.new).steps ≡ (C.cursor inner.old).steps)) }
    ensures passes { Tells (D.disk disk.old) → C.whole inner.old (seen (D.disk disk.old)) → IfOk result (λ here. Passes number here (skip_of skip.old) (skip_of skip.new) (C.cursor inner.old) (C.cursor inner.new) (seen (D.disk disk.old))) }
    ensures spent { (k : List ℕ) → Tells (D.disk disk.old) → C.whole inner.old (seen (D.disk disk.old)) → C.steady inner.old (seen (D.disk disk.old)) → IsTrue ((C.cursor inner.old).distinct (seen (D.disk disk.old))) → IsTrue ((C.cursor inner.old).sought k) → OnErr result (IsWithinEnd (C.cursor inner.new) (seen (D.disk disk.old)) k) }
{
    if hides::<D, C>(inner, number, skip) {
        return match inner.next(disk) {
            Ok(()) => Ok(false),
            Err(stop) => Err(stop),
        };
    }
    if inner.is_put() {
        return Ok(true);
    }
    skip.is = false;
    skip.key.clear();
    match skip.key.extend_from_slice(inner.key()) {
        Ok(()) => {}
        Err(_) => return Err(Stop::Memory),
    }
    skip.is = true;
    match inner.next(disk) {
        Ok(()) => Ok(false),
        Err(stop) => Err(stop),
    }
}

/// Goes to the first version that is shown.
pub fn settle<D: Disk, C: Cursor<D>>(
    disk: &mut D,
    inner: &mut C,
    number: u64,
    skip: &mut Skip,
) -> Result<(), Stop>
    ensures list { SameList (C.cursor inner.old) (C.cursor inner.new) }
    ensures counts { CountsStep (C.cursor inner.old) (C.cursor inner.new) (D.disk disk.old) (D.disk disk.new) }
    ensures same { Tells (D.disk disk.old) → Same (D.disk disk.old) (D.disk disk.new) }
    ensures stops { IfErr result (MayStop (C.offends inner.old) (D.disk disk.old) (D.disk disk.new)) }
    ensures offends { (image : Image) (file at : ℕ) → C.offends inner.new image file at → C.offends inner.old image file at }
    ensures whole { Tells (D.disk disk.old) → C.whole inner.old (seen (D.disk disk.old)) → C.whole inner.new (seen (D.disk disk.old)) }
    ensures sought { (k : List ℕ) → IsTrue ((C.cursor inner.old).sought k) → OnOk result (IsTrue ((C.cursor inner.new).sought k)) }
    ensures steady { Tells (D.disk disk.old) → C.whole inner.old (seen (D.disk disk.old)) → C.steady inner.old (seen (D.disk disk.old)) → OnOk result (C.steady inner.new (seen (D.disk disk.old))) }
    ensures steps { OnOk result ((C.cursor inner.new).steps ≤ (C.cursor inner.old).steps) }
    ensures settled { Tells (D.disk disk.old) → C.whole inner.old (seen (D.disk disk.old)) → OnOk result (shown number (skip_of skip.old) (left (C.cursor inner.old) (seen (D.disk disk.old))) ≡ with_current (C.cursor inner.new).current (shown number (key_of (C.cursor inner.new).current) ((C.cursor inner.new).rest (seen (D.disk disk.old))))) }
    ensures spent { (k : List ℕ) → Tells (D.disk disk.old) → C.whole inner.old (seen (D.disk disk.old)) → C.steady inner.old (seen (D.disk disk.old)) → IsTrue ((C.cursor inner.old).distinct (seen (D.disk disk.old))) → IsTrue ((C.cursor inner.old).sought k) → OnErr result (IsWithinEnd (C.cursor inner.new) (seen (D.disk disk.old)) k) }
{
    'settling: while !inner.at_end() {
        match pass::<D, C>(disk, inner, number, skip) {
            Ok(here) => {
                if here {
                    return Ok(());
                }
            }
            Err(stop) => return Err(stop),
        }
    }
    Ok(())
}

/// A cursor over the versions of another that stand at a sequence number.
#[derive(Drop)]
pub struct AtSnapshot<C: Listed> {
    inner: C,
    number: u64,
    skip: Skip,
    placed: bool,
}

impl<C: Listed> Listed for AtSnapshot<C> {
    ghost cursor = { λ a. snapshot_state a.number a.placed (C.cursor a.inner) };

    ghost whole = { λ a image. C.whole a.inner image };

    ghost offends = { λ a image file at. C.offends a.inner image file at };

    ghost steady = { λ a image. C.steady a.inner image × IsInPlace (snapshot_state a.number a.placed (C.cursor a.inner)) image };

    fn at_end(&self) -> bool {
        !self.placed || self.inner.at_end()
    }

    fn key(&self) -> &[u8] {
        self.inner.key()
    }

    fn value(&self) -> &[u8] {
        self.inner.value()
    }

    fn sequence(&self) -> u64 {
        self.inner.sequence()
    }

    fn is_put(&self) -> bool {
        self.inner.is_put()
    }

    ghost not_whole = { λ a image file at offence whole. C.not_whole a.inner image file at offence whole };

    ghost in_order = { λ a image whole. snapshot_in_order a.number a.placed (C.cursor a.inner) image (C.in_order a.inner image whole) };

    ghost by_files = { λ a i j same whole. snapshot_by_files a.number a.placed (C.cursor a.inner) i j (C.by_files a.inner i j same whole) };

    ghost offends_by_files = { λ a i j file at same offence. C.offends_by_files a.inner i j file at same offence };

    ghost in_place = { λ a image whole steady. steady.1 };

    ghost costs = { λ a image k whole steady one key. snapshot_costs a.number a.placed (C.cursor a.inner) image k (C.costs a.inner image k whole steady.0 one key) (C.to_end a.inner image k (C.cursor a.inner).current whole) };

    ghost to_end = { λ a image k place whole. snapshot_to_end a.number a.placed (C.cursor a.inner) image k place (C.to_end a.inner image k place whole) };

    ghost going = { λ a is. snapshot_going a.number a.placed (C.cursor a.inner) (C.going a.inner) is };

    ghost bounded = { λ a. C.bounded a.inner };
}

impl<C: Listed> AtSnapshot<C> {
    pub fn new(alloc: Global, inner: C, number: u64) -> AtSnapshot<C>
        ensures state { ⟦<AtSnapshot<C> as Listed>⟧.cursor result ≡ snapshot_state number false (C.cursor inner) }
        ensures whole { (image : Image) → C.whole inner image → ⟦<AtSnapshot<C> as Listed>⟧.whole result image }
        ensures offends { (image : Image) (file at : ℕ) → ⟦<AtSnapshot<C> as Listed>⟧.offends result image file at → C.offends inner image file at }
    {
        AtSnapshot {
            inner,
            number,
            skip: Skip {
                key: Vec::new(alloc),
                is: false,
            },
            placed: false,
        }
    }
}

impl<D: Disk, C: Cursor<D>> Cursor<D> for AtSnapshot<C> {
    fn seek(&mut self, disk: &mut D, key: &[u8]) -> Result<(), Stop> {
        self.placed = false;
        self.skip.is = false;
        match self.inner.seek(disk, key) {
            Ok(()) => {}
            Err(stop) => return Err(stop),
        }
        match settle::<D, C>(disk, &mut self.inner, self.number, &mut self.skip) {
            Ok(()) => {
                self.placed = true;
                Ok(())
            }
            Err(stop) => Err(stop),
        }
    }

    fn next(&mut self, disk: &mut D) -> Result<(), Stop> {
        self.placed = false;
        self.skip.is = false;
        self.skip.key.clear();
        match self.skip.key.extend_from_slice(self.inner.key()) {
            Ok(()) => {}
            Err(_) => return Err(Stop::Memory),
        }
        self.skip.is = true;
        match self.inner.next(disk) {
            Ok(()) => {}
            Err(stop) => return Err(stop),
        }
        match settle::<D, C>(disk, &mut self.inner, self.number, &mut self.skip) {
            Ok(()) => {
                self.placed = true;
                Ok(())
            }
            Err(stop) => Err(stop),
        }
    }
}
