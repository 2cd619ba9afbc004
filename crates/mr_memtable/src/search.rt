//! The place of a version among slots in order.
ghost use Rattle.std.specs.Prelude.{◌≡◌, ◌<◌, ◌≤◌, ◌+◌, ◌-◌, ◌^◌, true, false, None, vec_len, length, take, get_or};
ghost use Rattle.std.specs.List.{AllByRecursion};
ghost use Rattle.mr_iter.specs.Versions.{as_version};
ghost use Rattle.mr_memtable.specs.Slots.{Fits, front_of as front_in, goes_before, no_slot, IsPlace};
ghost use Rattle.mr_memtable.specs.Chunks.{listed, sizes, sum_of, AreFilled, first_slot, AllFit};

use crate::chunk::Chunk;
use crate::piece::Piece;
use crate::slot::{front_of, is_before, is_front_before};
use mr_base::Direction;

/// Whether a slot of a chunk stands before the version of a key and a sequence number.
fn is_slot_before(
    pieces: &[Piece],
    chunk: &Chunk,
    at: usize,
    direction: Direction,
    front: u128,
    key: &[u8],
    sequence: u64,
) -> bool
    requires within { at < vec_len chunk.now.slots }
    requires fit { AllByRecursion (Fits pieces.now) chunk.now.slots.items }
    requires front { front ≡ front_in key.now }
    ensures { result ≡ goes_before direction pieces.now (as_version key.now sequence None) (get_or chunk.now.slots.items at no_slot) }
{
    let other = chunk.fronts[at];
    if front != other {
        return is_front_before(direction, front, other);
    }
    is_before(pieces, &chunk.slots[at], direction, front, key, sequence)
}

/// Where the version of a key and a sequence number belongs in a chunk.
pub fn find_in_chunk(
    pieces: &[Piece],
    chunk: &Chunk,
    direction: Direction,
    front: u128,
    key: &[u8],
    sequence: u64,
) -> usize
    requires fit { AllByRecursion (Fits pieces.now) chunk.now.slots.items }
    requires front { front ≡ front_in key.now }
    ensures within { result ≤ length chunk.now.slots.items }
    ensures before { 0 < result → goes_before direction pieces.now (as_version key.now sequence None) (get_or chunk.now.slots.items (result - 1) no_slot) ≡ true }
    ensures behind { result < length chunk.now.slots.items → goes_before direction pieces.now (as_version key.now sequence None) (get_or chunk.now.slots.items result no_slot) ≡ false }
{
    let mut low = 0;
    let mut high = chunk.slots.len();
    'halving: while low < high {
        let middle = low + (high - low) / 2;
        if is_slot_before(pieces, chunk, middle, direction, front, key, sequence) {
            low = middle + 1;
        } else {
            high = middle;
        }
    }
    low
}

/// Whether a chunk's first slot stands before the version of a key and a sequence number.
fn is_chunk_before(
    pieces: &[Piece],
    chunk: &Chunk,
    direction: Direction,
    front: u128,
    key: &[u8],
    sequence: u64,
) -> bool
    requires some { 0 < vec_len chunk.now.slots }
    requires fit { AllByRecursion (Fits pieces.now) chunk.now.slots.items }
    requires front { front ≡ front_in key.now }
    ensures { result ≡ goes_before direction pieces.now (as_version key.now sequence None) (get_or chunk.now.slots.items 0 no_slot) }
{
    if front != chunk.front {
        return is_front_before(direction, front, chunk.front);
    }
    is_before(pieces, &chunk.slots[0], direction, front, key, sequence)
}

/// Whether a chunk begins before the version of a key and a sequence number.
fn begins_before(
    pieces: &[Piece],
    chunks: &[Chunk],
    i: usize,
    direction: Direction,
    front: u128,
    key: &[u8],
    sequence: u64,
) -> bool
    requires within { i < length chunks.now }
    requires front { front ≡ front_in key.now }
    requires fit { AllFit pieces.now chunks.now }
    requires some { AllByRecursion (λ n. 1 ≤ n) (sizes chunks.now) }
    ensures { result ≡ goes_before direction pieces.now (as_version key.now sequence None) (first_slot chunks.now i) }
{
    is_chunk_before(pieces, &chunks[i], direction, front, key, sequence)
}

/// How many chunks begin before the version of a key and a sequence number.
pub fn find_chunk(
    pieces: &[Piece],
    chunks: &[Chunk],
    direction: Direction,
    front: u128,
    key: &[u8],
    sequence: u64,
) -> usize
    requires fit { AllFit pieces.now chunks.now }
    requires front { front ≡ front_in key.now }
    requires some { AllByRecursion (λ n. 1 ≤ n) (sizes chunks.now) }
    ensures within { result ≤ length chunks.now }
    ensures before { 0 < result → goes_before direction pieces.now (as_version key.now sequence None) (first_slot chunks.now (result - 1)) ≡ true }
    ensures behind { result < length chunks.now → goes_before direction pieces.now (as_version key.now sequence None) (first_slot chunks.now result) ≡ false }
{
    let mut low = 0;
    let mut high = chunks.len();
    'halving: while low < high {
        let middle = low + (high - low) / 2;
        if begins_before(pieces, chunks, middle, direction, front, key, sequence) {
            low = middle + 1;
        } else {
            high = middle;
        }
    }
    low
}

/// A chunk and a place in it.
#[derive(Clone, Copy)]
pub struct Place {
    pub chunk: usize,
    pub at: usize,
}

/// The chunk and the place in it where the version of a key and a sequence number belongs.
pub fn find(
    pieces: &[Piece],
    chunks: &[Chunk],
    direction: Direction,
    key: &[u8],
    sequence: u64,
) -> Place
    requires fit { AllFit pieces.now chunks.now }
    requires some { AllByRecursion (λ n. 1 ≤ n) (sizes chunks.now) }
    ensures chunk { 0 < length chunks.now → result.chunk < length chunks.now }
    ensures none { length chunks.now < 1 → result.chunk < 1 }
    ensures at { result.at ≤ get_or (sizes chunks.now) result.chunk 0 }
    ensures place { IsPlace direction pieces.now (as_version key.now sequence None) (listed chunks.now) (sum_of (take result.chunk (sizes chunks.now)) + result.at) }
{
    let front = front_of(key);
    let begun = find_chunk(pieces, chunks, direction, front, key, sequence);
    if begun == 0 {
        return Place { chunk: 0, at: 0 };
    }
    let chunk = begun - 1;
    let at = find_in_chunk(pieces, &chunks[chunk], direction, front, key, sequence);
    Place { chunk, at }
}
