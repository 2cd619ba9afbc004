//! Many cursors as one.
ghost use Rattle.std.specs.Prelude.{◌≡◌, ◌<◌, ◌≤◌, ◌+◌, ℕ, [], IsTrue, IsSome, IfOk, OnOk, length, map, None};
ghost use Rattle.std.specs.List.{AllByRecursion};
ghost use Rattle.mr_iter.specs.Cursors.{CursorState};
ghost use Rattle.mr_iter.specs.Children.{AnyOf};
ghost use Rattle.mr_base.specs.Disk.{Image};
ghost use Rattle.mr_iter.specs.Merging.{merge_state, first_of, IsMergeQueue, IsOneDirection};
ghost use Rattle.mr_iter.specs.MergePlaces.{IsMergeSteady, merge_costs, merge_to_end};
ghost use Rattle.mr_iter.specs.MergeFiles.{merge_not_whole, merge_by_files, merge_offends_by_files};
ghost use Rattle.mr_iter.specs.MergeLaws.{IsMergeQueue-prop, IsOneDirection-prop, merge_in_order, merge_going, merge_bounded};

use crate::children::seek_all;
use crate::cursor::{Cursor, Listed};
use crate::queue::{fill_queue, put_if_live};
use mr_base::{Direction, Disk, Memory, Stop};
use smallvec::SmallVec;

#[derive(Drop)]
pub struct Merge<C: Listed> {
    children: Vec<C>,
    order: SmallVec<usize, 16>,
    direction: Direction,
    ghost one_direction: { IsOneDirection direction (map C.cursor children.items) } by { IsOneDirection-prop direction (map C.cursor children.items) },
    ghost queue: { IsMergeQueue direction (map C.cursor children.items) order.items } by { IsMergeQueue-prop direction (map C.cursor children.items) order.items },
}

impl<C: Listed> Listed for Merge<C> {
    ghost use Rattle.std.specs.List.{AllByRecursion};
    ghost use Rattle.mr_iter.specs.Children.{AnyOf};

    ghost cursor = { λ m. merge_state m.direction m.order.items (map C.cursor m.children.items) };

    ghost whole = { λ m image. AllByRecursion (λ c. C.whole c image) m.children.items };

    ghost offends = { λ m image file at. AnyOf (λ c. C.offends c image file at) m.children.items };

    ghost steady = { λ m image. IsMergeSteady C.cursor C.steady m.direction m.children.items m.order.items image };

    fn at_end(&self) -> bool {
        self.order.is_empty()
    }

    fn key(&self) -> &[u8] {
        front::<C>(&self.children, &self.order).key()
    }

    fn value(&self) -> &[u8] {
        front::<C>(&self.children, &self.order).value()
    }

    fn sequence(&self) -> u64 {
        front::<C>(&self.children, &self.order).sequence()
    }

    fn is_put(&self) -> bool {
        front::<C>(&self.children, &self.order).is_put()
    }

    ghost not_whole = { λ m image file at any whole. merge_not_whole C.cursor C.whole C.offends C.not_whole m.children.items image file at any whole };

    ghost in_order = { λ m image whole. merge_in_order C.cursor C.whole C.in_order m.direction m.children.items m.order.items image m.one_direction m.queue whole };

    ghost by_files = { λ m i j same whole. merge_by_files C.cursor C.whole C.steady C.by_files m.direction i j m.order.items m.children.items same whole };

    ghost offends_by_files = { λ m i j file at same any. merge_offends_by_files C.cursor C.whole C.offends C.offends_by_files m.direction m.order.items m.children.items i j file at same any };

    ghost in_place = { λ m image whole steady. steady.place };

    ghost costs = { λ m image k whole steady one key. merge_costs C.cursor C.whole C.steady C.costs C.to_end m.direction image k m.children.items m.order.items whole steady one key };

    ghost to_end = { λ m image k place whole. merge_to_end C.cursor C.whole C.steady C.costs C.to_end m.direction image k m.children.items m.order.items place whole };

    ghost going = { λ m is. merge_going C.cursor C.going m.direction m.children.items m.order.items is };

    ghost bounded = { λ m. merge_bounded C.cursor C.bounded m.direction m.children.items m.order.items };
}

impl<C: Listed> Merge<C> {
    pub fn new(children: Vec<C>, direction: Direction) -> Result<Merge<C>, Memory>
        requires { IsOneDirection direction (map C.cursor children.items) }
        ensures state { IfOk result (λ m. ⟦<Merge<C> as Listed>⟧.cursor m ≡ merge_state direction [] (map C.cursor children.items)) }
        ensures whole { (image : Image) → AllByRecursion (λ c. C.whole c image) children.items → IfOk result (λ m. ⟦<Merge<C> as Listed>⟧.whole m image) }
        ensures offends { (image : Image) (file at : ℕ) → IfOk result (λ m. ⟦<Merge<C> as Listed>⟧.offends m image file at → AnyOf (λ c. C.offends c image file at) children.items) }
    {
        let order = SmallVec::new(*children.allocator());
        Ok(Merge {
            children,
            order,
            direction,
        })
    }
}

/// The child that stands on the first version.
fn front<'a, C: Listed>(children: &'a [C], order: &SmallVec<usize, 16>) -> &'a C
    requires { IsSome (first_of (map C.cursor children.now) order.now.items) }
    ensures { (C.cursor result.now).current ≡ first_of (map C.cursor children.now) order.now.items }
{
    &children[order[0]]
}

impl<D: Disk, C: Cursor<D>> Cursor<D> for Merge<C> {
    fn seek(&mut self, disk: &mut D, key: &[u8]) -> Result<(), Stop> {
        self.order.clear();
        match seek_all(disk, &mut self.children, key) {
            Ok(()) => {}
            Err(stop) => return Err(stop),
        }
        match fill_queue::<C>(self.direction, &self.children, &mut self.order) {
            Ok(()) => Ok(()),
            Err(stop) => {
                self.order.clear();
                Err(stop)
            }
        }
    }

    fn next(&mut self, disk: &mut D) -> Result<(), Stop> {
        let j = self.order.remove(0);
        match self.children[j].next(disk) {
            Ok(()) => {}
            Err(stop) => {
                self.order.clear();
                return Err(stop);
            }
        }
        match put_if_live::<C>(self.direction, &self.children, &mut self.order, j) {
            Ok(()) => Ok(()),
            Err(stop) => {
                self.order.clear();
                Err(stop)
            }
        }
    }
}
