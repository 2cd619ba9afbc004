//! The index of a run.
//!
//!     index   for each block: place u64, length u32, its first key; then the last key of the run
//!     key     length u32, key
ghost use Rattle.std.specs.Prelude.{◌≡◌, ◌≤◌, ◌<◌, ◌+◌, ◌++◌, ◌∷◌, [], length, map, IfOk, IfErr, OnOk, Ok};
ghost use Rattle.std.specs.List.{AllByRecursion};
ghost use Rattle.mr_run_file.specs.Reading.{ends_well as fits_well, indexed_in, all_indexed_in, index_in};
ghost use Rattle.mr_run_open.specs.Given.{indexed_of, indexed_ref, entry_given, IsUnread, last_read, index_of};
ghost use Rattle.mr_run_open.specs.Runs.{IsWithin};

use crate::fields::{BytesLeft, demand_left, key_of, u32_in, u64_in};
use mr_base::{Blob, Memory};
use std::alloc::Global;

/// The index's entry of a block: where the block begins, its length in bytes, and its first key.
#[derive(Drop)]
pub struct IndexEntry {
    pub place: u64,
    pub size: u32,
    pub key: Blob,
}

/// One whose key is lent from the index's bytes.
#[derive(Clone, Copy, Drop)]
pub struct EntryRef<'a> {
    pub place: u64,
    pub size: u32,
    pub key: &'a [u8],
}

/// Why no index was read.
#[derive(Clone, Copy, Drop)]
pub enum Unread {
    Memory,
    /// How many bytes are left from the first offence on.
    Left(BytesLeft),
}

/// The entries of all blocks, and the last key of the run.
#[derive(Drop)]
pub struct IndexRead {
    pub blocks: Vec<IndexEntry>,
    pub last: Blob,
}

/// Whether a block of this size that begins here leaves room for those behind it, and is the last one only at the end.
fn ends_well(end: u64, more: u64, at: u64, size: u32) -> bool
    requires { at ≤ end }
    ensures { result ≡ fits_well end more (at + size) }
{
    let room = end - at;
    if more == 0 {
        size as u64 == room
    } else {
        size as u64 <= room
    }
}

/// The entry of a block that has to begin at `at`, and behind which `more` others stand, up to `end`.
fn entry_in(end: u64, more: u64, at: u64, bytes: &[u8]) -> Result<(EntryRef<'_>, &[u8]), BytesLeft>
    requires { at ≤ end }
    ensures { entry_given result ≡ indexed_in end more at bytes.now }
{
    let (place, behind) = u64_in(bytes)?;
    demand_left(place == at, bytes.len())?;
    let (size, sized) = u32_in(behind)?;
    demand_left(ends_well(end, more, at, size), behind.len())?;
    let (key, rest) = key_of(sized)?;
    Ok((
        EntryRef {
            place: at,
            size,
            key,
        },
        rest,
    ))
}

/// A copy of an entry behind the others.
fn keep(alloc: Global, kept: &mut Vec<IndexEntry>, entry: EntryRef<'_>) -> Result<(), Memory>
    ensures { OnOk result (map indexed_of kept.new.items ≡ map indexed_of kept.old.items ++ indexed_ref entry.entry ∷ []) }
{
    let key = Blob::from_slice(alloc, entry.key)?;
    match kept.push(IndexEntry {
        place: entry.place,
        size: entry.size,
        key,
    }) {
        Ok(()) => Ok(()),
        Err(_) => Err(Memory),
    }
}

/// The entries of so many blocks, which lie before `end` without gaps; and the bytes behind the entries.
fn entries_in<'a>(
    alloc: Global,
    end: u64,
    blocks: u64,
    bytes: &'a [u8],
    kept: &mut Vec<IndexEntry>,
) -> Result<&'a [u8], Unread>
    requires { kept.old.items ≡ [] }
    ensures ok { IfOk result (λ rest. all_indexed_in end blocks 0 bytes.now ≡ Ok (map indexed_of kept.new.items, rest.now)) }
    ensures err { IfErr result (IsUnread (all_indexed_in end blocks 0 bytes.now)) }
    ensures count { IfOk result (λ rest. length kept.new.items ≡ blocks) }
    ensures within { IfOk result (λ rest. AllByRecursion IsWithin (map indexed_of kept.new.items)) }
{
    let mut rest = bytes;
    let mut at = 0;
    'reading: for i in 0..blocks {
        match entry_in(end, blocks - 1 - i, at, rest) {
            Ok((entry, behind)) => {
                match keep(alloc, kept, entry) {
                    Ok(()) => {}
                    Err(_) => return Err(Unread::Memory),
                }
                at += entry.size as u64;
                rest = behind;
            }
            Err(left) => return Err(Unread::Left(left)),
        }
    }
    Ok(rest)
}

/// The last key, behind which no bytes are left.
fn last_in(alloc: Global, bytes: &[u8]) -> Result<Blob, Unread>
    ensures ok { IfOk result (λ b. last_read bytes.now ≡ Ok b) }
    ensures err { IfErr result (IsUnread (last_read bytes.now)) }
{
    match key_of(bytes) {
        Ok((key, rest)) => {
            if !rest.is_empty() {
                return Err(Unread::Left(rest.len()));
            }
            match Blob::from_slice(alloc, key) {
                Ok(last) => Ok(last),
                Err(_) => Err(Unread::Memory),
            }
        }
        Err(left) => Err(Unread::Left(left)),
    }
}

/// The index of so many blocks that the bytes are, or the first offence. The blocks lie before `end`.
pub fn read_index(alloc: Global, end: u64, blocks: u64, bytes: &[u8]) -> Result<IndexRead, Unread>
    ensures ok { IfOk result (λ x. index_in end blocks bytes.now ≡ Ok (index_of x)) }
    ensures err { IfErr result (IsUnread (index_in end blocks bytes.now)) }
    ensures count { IfOk result (λ x. length x.blocks.items ≡ blocks) }
    ensures within { IfOk result (λ x. AllByRecursion IsWithin (map indexed_of x.blocks.items)) }
{
    let mut kept = Vec::new(alloc);
    let rest = match entries_in(alloc, end, blocks, bytes, &mut kept) {
        Ok(rest) => rest,
        Err(unread) => return Err(unread),
    };
    match last_in(alloc, rest) {
        Ok(last) => Ok(IndexRead { blocks: kept, last }),
        Err(unread) => Err(unread),
    }
}
