//! A memtable as its callers see it.
ghost use Rattle.std.specs.Prelude.{◌≡◌, ◌==◌, ℕ, ◌<◌, ◌≤◌, ◌+◌, [], length, unwrap_or, OnOk, OnErr};
ghost use Rattle.std.specs.Option.{option_map};
ghost use Rattle.mr_base.specs.Disk.{Image};
ghost use Rattle.mr_iter.specs.Versions.{as_version, place_in, version_cmp};
ghost use Rattle.mr_iter.specs.Newest.{newest};
ghost use Rattle.mr_memtable.specs.Given.{version_given};
ghost use Rattle.mr_memtable.specs.Tables.{at_beginning, versions_in};

use crate::cursor::MemCursor;
use crate::table::Table;
use crate::version::VersionRef;
use mr_base::{Direction, Memory};
use mr_iter::Listed;
use std::alloc::Global;
use std::marker::Model;

/// Versions in memory, in the order of a direction, and room for so many entries and bytes of keys and values more.
#[derive(Drop)]
pub struct Memtable {
    table: Table,
}

impl Model for Memtable {
    ghost use Rattle.mr_memtable.specs.Tables.{MemState, versions_in};

    ghost Value = { MemState };

    ghost view = { λ m. record { direction = m.table.direction; versions = versions_in m.table.bytes.items m.table.chunks.items; entries = m.table.entries; bytes = m.table.free } };
}

/// The newest version of a key in a table that isn't past a number.
fn newest_in<'a>(table: &'a Table, key: &[u8], number: u64) -> Option<VersionRef<'a>>
    ensures { version_given key.now result ≡ newest number key.now (versions_in table.now.bytes.items table.now.chunks.items) }
{
    let cursor = MemCursor::at(table, key, number);
    if cursor.at_end() || !cursor.is_on(key) {
        return None;
    }
    Some(cursor.version())
}

impl Memtable {
    /// No version, and no room.
    pub fn new(alloc: Global, direction: Direction) -> Memtable
        ensures direction { result.direction ≡ direction }
        ensures versions { result.versions ≡ [] }
        ensures entries { result.entries ≡ 0 }
        ensures bytes { result.bytes ≡ 0 }
    {
        Memtable {
            table: Table::new(alloc, direction),
        }
    }

    /// Makes room for so many entries, and so many bytes of keys and values. Takes memory; after an error the room is what it was.
    pub fn reserve(&mut self, entries: usize, bytes: usize) -> Result<(), Memory>
        ensures direction { self.new.direction ≡ self.old.direction }
        ensures versions { self.new.versions ≡ self.old.versions }
        ensures entries { OnOk result (self.new.entries ≡ entries) }
        ensures bytes { OnOk result (self.new.bytes ≡ bytes) }
        ensures same_entries { OnErr result (self.new.entries ≡ self.old.entries) }
        ensures same_bytes { OnErr result (self.new.bytes ≡ self.old.bytes) }
    {
        self.table.reserve(entries, bytes)
    }

    /// Adds a version; `put` is None for a deletion. Of the same key and sequence number the later one stands in front. Takes no
    /// memory, only room.
    pub fn insert(&mut self, key: &[u8], sequence: u64, put: Option<&[u8]>)
        requires entries { 0 < self.old.entries }
        requires bytes { length key.now + length (unwrap_or (option_map (λ v. v.now) put) []) ≤ self.old.bytes }
        ensures direction { self.new.direction ≡ self.old.direction }
        ensures versions { self.new.versions ≡ place_in (version_cmp self.old.direction) (as_version key.now sequence (option_map (λ v. v.now) put.entry)) self.old.versions }
        ensures entries { self.new.entries + 1 ≡ self.old.entries }
        ensures bytes { self.new.bytes + (length key.now + length (unwrap_or (option_map (λ v. v.now) put.entry) [])) ≡ self.old.bytes }
    {
        self.table.insert(key, sequence, put);
    }

    /// The newest version of a key that isn't past a number, deletions included. Takes no memory.
    pub fn newest<'a>(&'a self, key: &[u8], number: u64) -> Option<VersionRef<'a>>
        ensures { version_given key.now result ≡ newest number key.now self.now.versions }
    {
        newest_in(&self.table, key, number)
    }

    /// A cursor at the first version.
    pub fn cursor<'a>(&'a self) -> MemCursor<'a>
        ensures state { ⟦<MemCursor<'a> as Listed>⟧.cursor result ≡ at_beginning self.now }
        ensures whole { (image : Image) → ⟦<MemCursor<'a> as Listed>⟧.whole result image }
        ensures steady { (image : Image) → ⟦<MemCursor<'a> as Listed>⟧.steady result image }
        ensures offends { (image : Image) (file at : ℕ) → ⟦<MemCursor<'a> as Listed>⟧.offends result image file at → ⊥ }
    {
        MemCursor::new(&self.table)
    }

    /// How many versions it has.
    pub fn len(&self) -> usize
        ensures { result ≡ length self.now.versions }
    {
        self.table.count
    }

    /// Whether it has none.
    pub fn is_empty(&self) -> bool
        ensures { result ≡ (length self.now.versions == 0) }
    {
        self.table.count == 0
    }
}
