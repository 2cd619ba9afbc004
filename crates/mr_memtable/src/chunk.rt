//! A part of an ordered list.
ghost use Rattle.std.specs.Prelude.{◌≡◌, ◌<◌, ◌≤◌, [], take, drop, vec_len, vec_capacity, IfOk};
ghost use Rattle.std.specs.List.{insert};
ghost use Rattle.mr_memtable.specs.Slots.{AreFronts};
ghost use Rattle.mr_memtable.specs.Fronted.{AreFronts-prop};

use crate::slot::Slot;
use mr_base::Memory;
use std::alloc::Global;

/// Half of the slots that a chunk may have.
pub const HALF: usize = 128;

/// Puts an item into a list that has room for it.
fn insert_within<T: Copy>(list: &mut Vec<T>, place: usize, item: T)
    requires place { place ≤ vec_len list.old }
    requires room { vec_len list.old < vec_capacity list.old }
    ensures items { list.new.items ≡ insert list.old.items place item }
    ensures capacity { vec_capacity list.old ≤ vec_capacity list.new }
{
    match list.insert(place, item) {
        Ok(()) => {}
        Err(_) => {}
    }
}

/// Moves the second half of a full list of fronts into an empty one.
fn move_fronts(full: &mut Vec<u128>, empty: &mut Vec<u128>)
    requires full { vec_len full.old ≡ 256 }
    requires empty { empty.old.items ≡ [] }
    requires fits { 256 ≤ vec_capacity empty.old }
    ensures low { full.new.items ≡ take 128 full.old.items }
    ensures high { empty.new.items ≡ drop 128 full.old.items }
    ensures capacity { vec_capacity full.old ≤ vec_capacity full.new }
    ensures fits { vec_capacity empty.old ≤ vec_capacity empty.new }
{
    match empty.extend_from_slice(&full[HALF..]) {
        Ok(()) => {}
        Err(_) => {}
    }
    full.truncate(HALF);
}

/// Moves the second half of a full list of slots into an empty one.
fn move_slots(full: &mut Vec<Slot>, empty: &mut Vec<Slot>)
    requires full { vec_len full.old ≡ 256 }
    requires empty { empty.old.items ≡ [] }
    requires fits { 256 ≤ vec_capacity empty.old }
    ensures low { full.new.items ≡ take 128 full.old.items }
    ensures high { empty.new.items ≡ drop 128 full.old.items }
    ensures capacity { vec_capacity full.old ≤ vec_capacity full.new }
    ensures fits { vec_capacity empty.old ≤ vec_capacity empty.new }
{
    match empty.extend_from_slice(&full[HALF..]) {
        Ok(()) => {}
        Err(_) => {}
    }
    full.truncate(HALF);
}

/// A part of the list, with memory for all that it may get. The fronts of its slots stand side by
/// side, so that a search touches little memory, and the first of them in the chunk itself.
#[derive(Drop)]
pub struct Chunk {
    pub front: u128,
    pub fronts: Vec<u128>,
    pub slots: Vec<Slot>,
    ghost fronted: { AreFronts front fronts.items (vec_capacity fronts) slots.items } by { AreFronts-prop front fronts.items (vec_capacity fronts) slots.items },
}

impl Chunk {
    /// A chunk of no slots. Takes memory.
    pub fn new(alloc: Global) -> Result<Chunk, Memory>
        ensures empty { IfOk result (λ c. c.slots.items ≡ []) }
        ensures room { IfOk result (λ c. 256 ≤ vec_capacity c.slots) }
    {
        let fronts = Vec::with_capacity(alloc, 2 * HALF)?;
        let slots = Vec::with_capacity(alloc, 2 * HALF)?;
        Ok(Chunk {
            front: 0,
            fronts,
            slots,
        })
    }

    /// Puts a slot at a place; there is room for it.
    pub fn insert(&mut self, place: usize, slot: Slot)
        requires place { place ≤ vec_len self.old.slots }
        requires few { vec_len self.old.slots < 256 }
        requires room { vec_len self.old.slots < vec_capacity self.old.slots }
        ensures items { self.new.slots.items ≡ insert self.old.slots.items place slot }
        ensures capacity { vec_capacity self.old.slots ≤ vec_capacity self.new.slots }
    {
        insert_within(&mut self.fronts, place, slot.front);
        insert_within(&mut self.slots, place, slot);
        self.front = self.fronts[0];
    }

    /// Moves the second half of a full chunk into an empty one.
    pub fn split(&mut self, mut spare: Chunk) -> Chunk
        requires full { vec_len self.old.slots ≡ 256 }
        requires empty { spare.slots.items ≡ [] }
        requires fits { 256 ≤ vec_capacity spare.slots }
        ensures low { self.new.slots.items ≡ take 128 self.old.slots.items }
        ensures high { result.slots.items ≡ drop 128 self.old.slots.items }
        ensures capacity { vec_capacity self.old.slots ≤ vec_capacity self.new.slots }
        ensures fits { vec_capacity spare.slots ≤ vec_capacity result.slots }
    {
        spare.front = self.fronts[HALF];
        move_fronts(&mut self.fronts, &mut spare.fronts);
        move_slots(&mut self.slots, &mut spare.slots);
        spare
    }
}
