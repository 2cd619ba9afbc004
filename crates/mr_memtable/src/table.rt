//! The slots of a memtable, and the bytes of their keys and values.
ghost use Rattle.std.specs.Prelude.{◌≡◌, ◌<◌, ◌≤◌, ◌+◌, ◌-◌, [], length, unwrap_or, vec_capacity, OnOk, OnErr};
ghost use Rattle.std.specs.Option.{option_map};
ghost use Rattle.mr_memtable.specs.Tables.{IsKept};
ghost use Rattle.mr_memtable.specs.Props.{IsKept-prop};

use crate::chunk::{Chunk, HALF};
use crate::chunks::put_slot;
use crate::piece::{Piece, make_room};
use crate::search::find;
use crate::slot::store;
use crate::spare::add_spares;
use mr_base::{Direction, Memory};
use std::alloc::Global;

/// The slots in order, in chunks; the bytes of their keys and values, in pieces; the spare chunks; and the room that is left.
#[derive(Drop)]
pub struct Table {
    pub direction: Direction,
    pub bytes: Vec<Piece>,
    pub chunks: Vec<Chunk>,
    pub spares: Vec<Chunk>,
    pub count: usize,
    pub entries: usize,
    pub free: usize,
    ghost kept: { IsKept direction bytes.items chunks.items spares.items count entries free (vec_capacity chunks) } by { IsKept-prop direction bytes.items chunks.items spares.items count entries free (vec_capacity chunks) },
}

impl Table {
    ghost use Rattle.mr_iter.specs.Versions.{as_version, place_in, version_cmp};
    ghost use Rattle.mr_memtable.specs.Tables.{versions_in};

    pub fn new(alloc: Global, direction: Direction) -> Table
        ensures direction { result.direction ≡ direction }
        ensures versions { versions_in result.bytes.items result.chunks.items ≡ [] }
        ensures entries { result.entries ≡ 0 }
        ensures free { result.free ≡ 0 }
    {
        Table {
            direction,
            bytes: Vec::new(alloc),
            chunks: Vec::new(alloc),
            spares: Vec::new(alloc),
            count: 0,
            entries: 0,
            free: 0,
        }
    }

    /// Makes room for so many entries and bytes. Takes memory.
    pub fn reserve(&mut self, entries: usize, bytes: usize) -> Result<(), Memory>
        ensures direction { self.new.direction ≡ self.old.direction }
        ensures versions { versions_in self.new.bytes.items self.new.chunks.items ≡ versions_in self.old.bytes.items self.old.chunks.items }
        ensures entries { OnOk result (self.new.entries ≡ entries) }
        ensures free { OnOk result (self.new.free ≡ bytes) }
        ensures same_entries { OnErr result (self.new.entries ≡ self.old.entries) }
        ensures same_free { OnErr result (self.new.free ≡ self.old.free) }
    {
        let Some(most) = self.count.checked_add(entries) else {
            return Err(Memory);
        };
        add_spares(&mut self.chunks, &mut self.spares, most / HALF + 1)?;
        make_room(&mut self.bytes, bytes)?;
        self.entries = entries;
        self.free = bytes;
        Ok(())
    }

    /// Adds a version. Takes no memory.
    pub fn insert(&mut self, key: &[u8], sequence: u64, put: Option<&[u8]>)
        requires entries { 0 < self.old.entries }
        requires free { length key.now + length (unwrap_or (option_map (λ v. v.now) put) []) ≤ self.old.free }
        ensures direction { self.new.direction ≡ self.old.direction }
        ensures versions { versions_in self.new.bytes.items self.new.chunks.items ≡ place_in (version_cmp self.old.direction) (as_version key.now sequence (option_map (λ v. v.now) put.entry)) (versions_in self.old.bytes.items self.old.chunks.items) }
        ensures entries { self.new.entries + 1 ≡ self.old.entries }
        ensures free { self.new.free + (length key.now + length (unwrap_or (option_map (λ v. v.now) put.entry) [])) ≡ self.old.free }
    {
        let place = find(&self.bytes, &self.chunks, self.direction, key, sequence);
        let slot = store(&mut self.bytes, key, sequence, put);
        self.free -= slot.end - slot.start;
        put_slot(
            &mut self.chunks,
            &mut self.spares,
            place.chunk,
            place.at,
            slot,
        );
        self.count += 1;
        self.entries -= 1;
    }
}
