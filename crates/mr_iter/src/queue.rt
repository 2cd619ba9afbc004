//! The order of many cursors.
ghost use Rattle.std.specs.Prelude.{[], ◌≡◌, ◌<◌, ◌≤◌, ◌+◌, ◌^◌, ◌∷◌, ◌++◌, ℕ, true, false, IsTrue, OnOk, OnErr, IfErr, length, map, is_some, nat_eq, take, slice_index_or};
ghost use Rattle.std.specs.List.{AllByRecursion, insert};
ghost use Rattle.mr_base.specs.declared.stop.Stop.TheVariants.{Memory as MemoryStop};
ghost use Rattle.mr_iter.specs.Cursors.{CursorState};
ghost use Rattle.mr_iter.specs.Merging.{current_at, precedes, IsQueue, IsPut, IsOneDirection, HasAll};

use crate::cursor::Listed;
use crate::order::compare_keys;
use mr_base::{Direction, Stop};
use smallvec::SmallVec;

/// Whether child i comes before child j.
pub fn goes_before<C: Listed>(direction: Direction, children: &[C], i: usize, j: usize) -> bool
    requires first { is_some (current_at (map C.cursor children.now) i) ≡ true }
    requires second { is_some (current_at (map C.cursor children.now) j) ≡ true }
    ensures { result ≡ precedes direction (map C.cursor children.now) i j }
{
    let a = &children[i];
    let b = &children[j];
    compare_keys(direction, a.key(), b.key())
        .then(b.sequence().cmp(&a.sequence()))
        .then(i.cmp(&j))
        .is_lt()
}

/// The place of the first child in the queue that child j comes before.
pub fn find_place<C: Listed>(
    direction: Direction,
    children: &[C],
    order: &[usize],
    j: usize,
) -> usize
    requires members { AllByRecursion (λ k. is_some (current_at (map C.cursor children.now) k) ≡ true) order.now }
    requires live { is_some (current_at (map C.cursor children.now) j) ≡ true }
    ensures within { result ≤ length order.now }
    ensures before { AllByRecursion (λ k. precedes direction (map C.cursor children.now) j k ≡ false) (take result order.now) }
    ensures behind { result < length order.now → precedes direction (map C.cursor children.now) j (slice_index_or order.now result 0) ≡ true }
{
    for place in 0..order.len() {
        if goes_before::<C>(direction, children, j, order[place]) {
            return place;
        }
    }
    order.len()
}

/// Puts a child that isn't at its end where it belongs.
pub fn put_in_queue<C: Listed>(
    direction: Direction,
    children: &[C],
    order: &mut SmallVec<usize, 16>,
    j: usize,
) -> Result<(), Stop>
    requires queue { IsQueue direction (map C.cursor children.now) order.old.items }
    requires live { is_some (current_at (map C.cursor children.now) j) ≡ true }
    requires new { AllByRecursion (λ k. nat_eq j k ≡ false) order.old.items }
    ensures queue { OnOk result (IsQueue direction (map C.cursor children.now) order.new.items) }
    ensures placed { OnOk result ((place : ℕ) × (order.new.items ≡ insert order.old.items place j)) }
    ensures stop { IfErr result (λ stop. stop ≡ MemoryStop) }
{
    let place = find_place::<C>(direction, children, order.as_slice(), j);
    match order.insert(place, j) {
        Ok(()) => Ok(()),
        Err(_) => Err(Stop::Memory),
    }
}

/// Puts a child where it belongs, if it isn't at its end.
pub fn put_if_live<C: Listed>(
    direction: Direction,
    children: &[C],
    order: &mut SmallVec<usize, 16>,
    j: usize,
) -> Result<(), Stop>
    requires within { j < length children.now }
    requires queue { IsQueue direction (map C.cursor children.now) order.old.items }
    requires new { AllByRecursion (λ k. nat_eq j k ≡ false) order.old.items }
    ensures queue { OnOk result (IsQueue direction (map C.cursor children.now) order.new.items) }
    ensures put { OnOk result (IsPut (map C.cursor children.now) j order.old.items order.new.items) }
    ensures stop { IfErr result (λ stop. stop ≡ MemoryStop) }
{
    let child = &children[j];
    if child.at_end() {
        return Ok(());
    }
    match put_in_queue::<C>(direction, children, order, j) {
        Ok(()) => Ok(()),
        Err(stop) => Err(stop),
    }
}

/// Puts all children that aren't at their ends into an empty queue.
pub fn fill_queue<C: Listed>(
    direction: Direction,
    children: &[C],
    order: &mut SmallVec<usize, 16>,
) -> Result<(), Stop>
    requires { order.old.items ≡ [] }
    ensures queue { OnOk result (IsQueue direction (map C.cursor children.now) order.new.items) }
    ensures all { OnOk result (HasAll (length children.now) (map C.cursor children.now) order.new.items) }
    ensures stop { IfErr result (λ stop. stop ≡ MemoryStop) }
{
    for place in 0..children.len() {
        match put_if_live::<C>(direction, children, order, place) {
            Ok(()) => {}
            Err(stop) => return Err(stop),
        }
    }
    Ok(())
}
