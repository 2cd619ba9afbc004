//! A version whose key and value stand in a piece of bytes.
ghost use Rattle.std.specs.Prelude.{◌≡◌, ◌<◌, ◌≤◌, ◌+◌, ◌++◌, length, slice_index, vec_capacity, vec_len, unwrap_or, [], is_some, cond, Some, None};
ghost use Rattle.std.specs.Option.{option_map};
ghost use Rattle.std.specs.Ordering.{is_gt};
ghost use Rattle.mr_iter.specs.Versions.{as_version, version_cmp};
ghost use Rattle.mr_memtable.specs.Slots.{version_at, version_from, Fits, IsWithin, GoOn, room_in, part, text_in, front_of as front_in, front_cmp};

use crate::piece::Piece;
use byteorder::{BigEndian, ByteOrder};
use mr_base::Direction;
use mr_iter::compare_keys;

/// The key stands at `start..middle` of the piece of this number, and the value at `middle..end`. Most comparisons end at `front`,
/// without a look at the key.
#[derive(Clone, Copy, Drop)]
pub struct Slot {
    pub front: u128,
    pub piece: usize,
    pub start: usize,
    pub middle: usize,
    pub end: usize,
    pub sequence: u64,
    pub is_put: bool,
}

/// The byte at a place, 0 behind the end.
fn byte_at(key: &[u8], at: usize) -> u8
    ensures { result ≡ slice_index key.now at }
{
    match key.get(at) {
        Some(byte) => *byte,
        None => 0,
    }
}

/// The number in the first 16 bytes of a key, where missing bytes are 0: an index number and the 12 bytes behind it, which tell
/// most keys of one table apart. A key with a smaller front is smaller.
pub fn front_of(key: &[u8]) -> u128
    ensures { result ≡ front_in key.now }
{
    BigEndian::read_u128(&[
        byte_at(key, 0),
        byte_at(key, 1),
        byte_at(key, 2),
        byte_at(key, 3),
        byte_at(key, 4),
        byte_at(key, 5),
        byte_at(key, 6),
        byte_at(key, 7),
        byte_at(key, 8),
        byte_at(key, 9),
        byte_at(key, 10),
        byte_at(key, 11),
        byte_at(key, 12),
        byte_at(key, 13),
        byte_at(key, 14),
        byte_at(key, 15),
    ])
}

/// Puts a key and a value into the piece of this number, which has room for them.
fn store_in(piece: &mut Piece, number: usize, key: &[u8], sequence: u64, put: Option<&[u8]>) -> Slot
    requires room { vec_len piece.old.bytes + length key.now + length (unwrap_or (option_map (λ v. v.now) put) []) ≤ vec_capacity piece.old.bytes }
    ensures number { result.piece ≡ number }
    ensures size { result.end ≡ result.start + (length key.now + length (unwrap_or (option_map (λ v. v.now) put.entry) [])) }
    ensures within { IsWithin piece.new.bytes.items result }
    ensures version { version_from piece.new.bytes.items result ≡ as_version key.now sequence (option_map (λ v. v.now) put.entry) }
    ensures bytes { piece.new.bytes.items ≡ piece.old.bytes.items ++ (key.now ++ unwrap_or (option_map (λ v. v.now) put.entry) []) }
    ensures capacity { vec_capacity piece.old.bytes ≤ vec_capacity piece.new.bytes }
{
    let value = match put {
        Some(value) => value,
        None => &[],
    };
    let start = piece.bytes.len();
    let _ = piece.bytes.extend_from_slice(key);
    let middle = piece.bytes.len();
    let _ = piece.bytes.extend_from_slice(value);
    Slot {
        front: front_of(key),
        piece: number,
        start,
        middle,
        end: piece.bytes.len(),
        sequence,
        is_put: put.is_some(),
    }
}

/// Puts a key and a value into the last piece, which has room for them.
pub fn store(pieces: &mut Vec<Piece>, key: &[u8], sequence: u64, put: Option<&[u8]>) -> Slot
    requires some { 0 < vec_len pieces.old }
    requires room { length key.now + length (unwrap_or (option_map (λ v. v.now) put) []) ≤ room_in pieces.old.items }
    ensures size { result.end ≡ result.start + (length key.now + length (unwrap_or (option_map (λ v. v.now) put.entry) [])) }
    ensures fits { Fits pieces.new.items result }
    ensures version { version_at pieces.new.items result ≡ as_version key.now sequence (option_map (λ v. v.now) put.entry) }
    ensures pieces { GoOn pieces.old.items pieces.new.items }
    ensures count { vec_len pieces.new ≡ vec_len pieces.old }
    ensures room { room_in pieces.old.items ≤ room_in pieces.new.items + (length key.now + length (unwrap_or (option_map (λ v. v.now) put.entry) [])) }
{
    let last = pieces.len() - 1;
    store_in(&mut pieces[last], last, key, sequence, put)
}

/// The bytes from one place to another.
fn part_of(text: &[u8], from: usize, to: usize) -> &[u8]
    requires order { from ≤ to }
    requires within { to ≤ length text.now }
    ensures { result.now ≡ part text.now from to }
{
    &text[from..to]
}

/// A slot's key.
pub fn key_of<'a>(pieces: &'a [Piece], slot: &Slot) -> &'a [u8]
    requires fits { Fits pieces.now slot.now }
    ensures { result.now ≡ (version_at pieces.now slot.now).key }
{
    part_of(&pieces[slot.piece].bytes, slot.start, slot.middle)
}

/// A slot's value, empty for a deletion.
pub fn value_of<'a>(pieces: &'a [Piece], slot: &Slot) -> &'a [u8]
    requires fits { Fits pieces.now slot.now }
    ensures value { result.now ≡ unwrap_or (version_at pieces.now slot.now).put [] }
    ensures put { cond slot.now.is_put (Some result.now) None ≡ (version_at pieces.now slot.now).put }
{
    if slot.is_put {
        part_of(&pieces[slot.piece].bytes, slot.middle, slot.end)
    } else {
        &[]
    }
}

/// Whether the key of the second front stands before that of the first, where they differ.
pub fn is_front_before(direction: Direction, front: u128, other: u128) -> bool
    ensures { result ≡ is_gt (front_cmp direction front other) }
{
    match direction {
        Direction::Forward => other < front,
        Direction::Reverse => front < other,
    }
}

/// Whether this version stands before that of a key with this front and a sequence number.
pub fn is_before(
    pieces: &[Piece],
    slot: &Slot,
    direction: Direction,
    front: u128,
    key: &[u8],
    sequence: u64,
) -> bool
    requires fits { Fits pieces.now slot.now }
    requires front { front ≡ front_in key.now }
    ensures { result ≡ is_gt (version_cmp direction (as_version key.now sequence Rattle.std.specs.Prelude.None) (version_at pieces.now slot.now)) }
{
    if front != slot.front {
        return is_front_before(direction, front, slot.front);
    }
    compare_keys(direction, key, key_of(pieces, slot))
        .then(slot.sequence.cmp(&sequence))
        .is_gt()
}
