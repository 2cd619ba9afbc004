//! An ordered list in chunks.
ghost use Rattle.std.specs.Prelude.{◌≡◌, ◌<◌, ◌≤◌, ◌+◌, ◌*◌, ◌∷◌, [], length, take, get_or, set, vec_len, vec_capacity};
ghost use Rattle.std.specs.List.{insert};
ghost use Rattle.mr_memtable.specs.Chunks.{listed, sizes, sum_of, HaveRoom, AreSpare, AreFilled};

use crate::chunk::{Chunk, HALF};
use crate::slot::Slot;

/// Puts a slot at a place of a chunk that has room.
pub fn insert_at(chunks: &mut Vec<Chunk>, i: usize, place: usize, slot: Slot)
    requires within { i < vec_len chunks.old }
    requires place { place ≤ get_or (sizes chunks.old.items) i 0 }
    requires room { get_or (sizes chunks.old.items) i 0 < 256 }
    requires rooms { HaveRoom chunks.old.items }
    ensures list { listed chunks.new.items ≡ insert (listed chunks.old.items) (sum_of (take i (sizes chunks.old.items)) + place) slot }
    ensures sizes { sizes chunks.new.items ≡ set (sizes chunks.old.items) i (get_or (sizes chunks.old.items) i 0 + 1) }
    ensures rooms { HaveRoom chunks.new.items }
    ensures count { vec_len chunks.new ≡ vec_len chunks.old }
    ensures capacity { vec_capacity chunks.old ≤ vec_capacity chunks.new }
{
    chunks[i].insert(place, slot);
}

/// Puts a chunk into a list that has room for it.
fn put_within(chunks: &mut Vec<Chunk>, i: usize, chunk: Chunk)
    requires place { i ≤ vec_len chunks.old }
    requires room { vec_len chunks.old < vec_capacity chunks.old }
    ensures list { chunks.new.items ≡ insert chunks.old.items i chunk }
    ensures count { vec_len chunks.new ≡ vec_len chunks.old + 1 }
    ensures capacity { vec_capacity chunks.old ≤ vec_capacity chunks.new }
{
    match chunks.insert(i, chunk) {
        Ok(()) => {}
        Err(_) => {}
    }
}

/// Moves the second half of a full chunk into an empty one behind it.
pub fn split_chunk(chunks: &mut Vec<Chunk>, i: usize, spare: Chunk)
    requires within { i < vec_len chunks.old }
    requires full { get_or (sizes chunks.old.items) i 0 ≡ 256 }
    requires empty { spare.slots.items ≡ [] }
    requires fits { 256 ≤ vec_capacity spare.slots }
    requires room { vec_len chunks.old < vec_capacity chunks.old }
    requires rooms { HaveRoom chunks.old.items }
    ensures list { listed chunks.new.items ≡ listed chunks.old.items }
    ensures sizes { sizes chunks.new.items ≡ insert (set (sizes chunks.old.items) i 128) (i + 1) 128 }
    ensures rooms { HaveRoom chunks.new.items }
    ensures count { vec_len chunks.new ≡ vec_len chunks.old + 1 }
    ensures capacity { vec_capacity chunks.old ≤ vec_capacity chunks.new }
{
    let second = chunks[i].split(spare);
    put_within(chunks, i + 1, second);
}

/// Puts a slot into the first chunk of an empty list.
fn put_first(chunks: &mut Vec<Chunk>, spares: &mut Vec<Chunk>, slot: Slot)
    requires empty { chunks.old.items ≡ [] }
    requires some { 0 < vec_len spares.old }
    requires spare { AreSpare spares.old.items }
    requires room { 0 < vec_capacity chunks.old }
    ensures list { listed chunks.new.items ≡ slot ∷ [] }
    ensures filled { AreFilled (sizes chunks.new.items) }
    ensures rooms { HaveRoom chunks.new.items }
    ensures spare { AreSpare spares.new.items }
    ensures count { vec_len chunks.new + vec_len spares.new ≡ vec_len chunks.old + vec_len spares.old }
    ensures capacity { vec_capacity chunks.old ≤ vec_capacity chunks.new }
{
    let Some(mut spare) = spares.pop() else {
        return;
    };
    spare.insert(0, slot);
    put_within(chunks, 0, spare);
}

/// Puts a slot at a place of a full chunk, half of which goes into a spare one.
fn put_full(chunks: &mut Vec<Chunk>, spares: &mut Vec<Chunk>, i: usize, place: usize, slot: Slot)
    requires within { i < vec_len chunks.old }
    requires full { get_or (sizes chunks.old.items) i 0 ≡ 256 }
    requires place { place ≤ 256 }
    requires filled { AreFilled (sizes chunks.old.items) }
    requires rooms { HaveRoom chunks.old.items }
    requires some { 0 < vec_len spares.old }
    requires spare { AreSpare spares.old.items }
    requires room { vec_len chunks.old < vec_capacity chunks.old }
    ensures list { listed chunks.new.items ≡ insert (listed chunks.old.items) (sum_of (take i (sizes chunks.old.items)) + place) slot }
    ensures filled { AreFilled (sizes chunks.new.items) }
    ensures rooms { HaveRoom chunks.new.items }
    ensures spare { AreSpare spares.new.items }
    ensures count { vec_len chunks.new + vec_len spares.new ≡ vec_len chunks.old + vec_len spares.old }
    ensures capacity { vec_capacity chunks.old ≤ vec_capacity chunks.new }
{
    let Some(spare) = spares.pop() else {
        return;
    };
    split_chunk(chunks, i, spare);
    if place <= HALF {
        insert_at(chunks, i, place, slot);
    } else {
        insert_at(chunks, i + 1, place - HALF, slot);
    }
}

/// Puts a slot at a place of a chunk, or into the first chunk where there is none.
pub fn put_slot(
    chunks: &mut Vec<Chunk>,
    spares: &mut Vec<Chunk>,
    i: usize,
    place: usize,
    slot: Slot,
)
    requires within { i ≤ vec_len chunks.old }
    requires chunk { 0 < vec_len chunks.old → i < vec_len chunks.old }
    requires place { place ≤ get_or (sizes chunks.old.items) i 0 }
    requires filled { AreFilled (sizes chunks.old.items) }
    requires rooms { HaveRoom chunks.old.items }
    requires spare { AreSpare spares.old.items }
    requires some { sum_of (sizes chunks.old.items) < 128 * (vec_len chunks.old + vec_len spares.old) }
    requires room { vec_len chunks.old + vec_len spares.old ≤ vec_capacity chunks.old }
    ensures list { listed chunks.new.items ≡ insert (listed chunks.old.items) (sum_of (take i (sizes chunks.old.items)) + place) slot }
    ensures filled { AreFilled (sizes chunks.new.items) }
    ensures rooms { HaveRoom chunks.new.items }
    ensures spare { AreSpare spares.new.items }
    ensures count { vec_len chunks.new + vec_len spares.new ≡ vec_len chunks.old + vec_len spares.old }
    ensures capacity { vec_capacity chunks.old ≤ vec_capacity chunks.new }
{
    if chunks.is_empty() {
        put_first(chunks, spares, slot);
    } else if chunks[i].slots.len() >= 2 * HALF {
        put_full(chunks, spares, i, place, slot);
    } else {
        insert_at(chunks, i, place, slot);
    }
}
