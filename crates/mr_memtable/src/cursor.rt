//! A cursor over a memtable.
ghost use Rattle.std.specs.Prelude.{◌≡◌, ◌<◌, ◌≤◌, ℕ, Some, IsSome, IfSome, length, get_or};
ghost use Rattle.mr_memtable.specs.Slots.{version_at, Fits};
ghost use Rattle.mr_memtable.specs.Chunks.{sizes};
ghost use Rattle.mr_memtable.specs.Given.{version_of};
ghost use Rattle.mr_iter.specs.Newest.{newest, only_of, is_of};
ghost use Rattle.mr_memtable.specs.Tables.{IsStanding, flat, standing_at, versions_in};
ghost use Rattle.mr_memtable.specs.Props.{IsStanding-prop};
ghost use Rattle.mr_memtable.specs.Standing.{standing_in_order, standing_says, standing_going, standing_bounded, standing_in_place, standing_costs, standing_to_end};

use crate::search::{Place, find};
use crate::slot::{Slot, key_of, value_of};
use crate::table::Table;
use crate::version::VersionRef;
use mr_base::{Disk, Stop};
use mr_iter::{Cursor, Listed};

/// A cursor over the versions in memory. It reads no file and takes no memory.
#[derive(Drop)]
pub struct MemCursor<'a> {
    table: &'a Table,
    chunk: usize,
    at: usize,
    ghost standing: { IsStanding (sizes table.now.chunks.items) chunk at } by { IsStanding-prop (sizes table.now.chunks.items) chunk at },
}

impl<'a> MemCursor<'a> {
    /// At the first version.
    pub fn new(table: &'a Table) -> MemCursor<'a>
        ensures { ⟦<MemCursor<'a> as Listed>⟧.cursor result ≡ standing_at table.now.direction (versions_in table.now.bytes.items table.now.chunks.items) 0 }
    {
        MemCursor {
            table,
            chunk: 0,
            at: 0,
        }
    }

    /// At the place of a key and a sequence number: the first version that doesn't come before it.
    pub fn at(table: &'a Table, key: &[u8], number: u64) -> MemCursor<'a>
        ensures newest { only_of key.now (⟦<MemCursor<'a> as Listed>⟧.cursor result).current ≡ newest number key.now (versions_in table.now.bytes.items table.now.chunks.items) }
    {
        let found = find(&table.bytes, &table.chunks, table.direction, key, number);
        let place = stand(table, found);
        MemCursor {
            table,
            chunk: place.chunk,
            at: place.at,
        }
    }

    /// The version that it stands on.
    pub fn version(&self) -> VersionRef<'a>
        requires { IsSome (⟦<MemCursor<'a> as Listed>⟧.cursor self.now).current }
        ensures { IfSome (⟦<MemCursor<'a> as Listed>⟧.cursor self.now).current (λ v. version_of v.key result ≡ v) }
    {
        let table: &'a Table = self.table;
        let slot = self.slot();
        VersionRef {
            sequence: slot.sequence,
            is_put: slot.is_put,
            value: value_of(&table.bytes, slot),
        }
    }

    /// Whether the version that it stands on is of this key.
    pub fn is_on(&self, key: &[u8]) -> bool
        requires { IsSome (⟦<MemCursor<'a> as Listed>⟧.cursor self.now).current }
        ensures { IfSome (⟦<MemCursor<'a> as Listed>⟧.cursor self.now).current (λ v. result ≡ is_of key.now v) }
    {
        key.cmp(self.key()).is_eq()
    }

    fn slot(&self) -> &'a Slot
        requires { IsSome (⟦<MemCursor<'a> as Listed>⟧.cursor self.now).current }
        ensures fits { Fits self.now.table.now.bytes.items result.now }
        ensures current { (⟦<MemCursor<'a> as Listed>⟧.cursor self.now).current ≡ Some (version_at self.now.table.now.bytes.items result.now) }
    {
        let table: &'a Table = self.table;
        &table.chunks[self.chunk].slots[self.at]
    }
}

/// The same place on a slot: not behind the last one of a chunk.
fn stand(table: &Table, place: Place) -> Place
    requires within { place.chunk ≤ length table.now.chunks.items }
    requires at { place.chunk < length table.now.chunks.items → place.at ≤ get_or (sizes table.now.chunks.items) place.chunk 0 }
    requires behind { length table.now.chunks.items ≤ place.chunk → place.at < 1 }
    ensures standing { IsStanding (sizes table.now.chunks.items) result.chunk result.at }
    ensures flat { flat (sizes table.now.chunks.items) result.chunk result.at ≡ flat (sizes table.now.chunks.items) place.chunk place.at }
{
    if place.chunk < table.chunks.len() && place.at >= table.chunks[place.chunk].slots.len() {
        return Place {
            chunk: place.chunk + 1,
            at: 0,
        };
    }
    place
}

impl<'a> Listed for MemCursor<'a> {
    ghost cursor = { λ c. standing_at c.table.now.direction (versions_in c.table.now.bytes.items c.table.now.chunks.items) (flat (sizes c.table.now.chunks.items) c.chunk c.at) };

    ghost whole = { λ c image. Unit {0} };

    ghost offends = { λ c image file at. ⊥ };

    ghost steady = { λ c image. Unit {0} };

    fn at_end(&self) -> bool {
        self.chunk >= self.table.chunks.len()
    }

    fn key(&self) -> &[u8] {
        key_of(&self.table.bytes, self.slot())
    }

    fn value(&self) -> &[u8] {
        value_of(&self.table.bytes, self.slot())
    }

    fn sequence(&self) -> u64 {
        self.slot().sequence
    }

    fn is_put(&self) -> bool {
        self.slot().is_put
    }

    ghost not_whole = { λ c image file at offence whole. offence };

    ghost in_order = { λ c image whole. standing_in_order c.table.now.direction (versions_in c.table.now.bytes.items c.table.now.chunks.items) (flat (sizes c.table.now.chunks.items) c.chunk c.at) c.table.now.kept.ordered };

    ghost by_files = { λ c i j same whole. (tt, (λ stands. tt), standing_says c.table.now.direction (versions_in c.table.now.bytes.items c.table.now.chunks.items) (flat (sizes c.table.now.chunks.items) c.chunk c.at) i j) };

    ghost offends_by_files = { λ c i j file at same offence. offence };

    ghost in_place = { λ c image whole steady. standing_in_place c.table.now.direction (versions_in c.table.now.bytes.items c.table.now.chunks.items) (flat (sizes c.table.now.chunks.items) c.chunk c.at) image };

    ghost costs = { λ c image k whole steady one key. standing_costs c.table.now.direction (versions_in c.table.now.bytes.items c.table.now.chunks.items) (flat (sizes c.table.now.chunks.items) c.chunk c.at) image k };

    ghost to_end = { λ c image k place whole. standing_to_end c.table.now.direction (versions_in c.table.now.bytes.items c.table.now.chunks.items) (flat (sizes c.table.now.chunks.items) c.chunk c.at) image k place };

    ghost going = { λ c is. standing_going (versions_in c.table.now.bytes.items c.table.now.chunks.items) (flat (sizes c.table.now.chunks.items) c.chunk c.at) is };

    ghost bounded = { λ c. standing_bounded (versions_in c.table.now.bytes.items c.table.now.chunks.items) (flat (sizes c.table.now.chunks.items) c.chunk c.at) };
}

impl<'a, D: Disk> Cursor<D> for MemCursor<'a> {
    fn seek(&mut self, _disk: &mut D, key: &[u8]) -> Result<(), Stop> {
        let found = find(
            &self.table.bytes,
            &self.table.chunks,
            self.table.direction,
            key,
            u64::MAX,
        );
        let place = stand(self.table, found);
        self.chunk = place.chunk;
        self.at = place.at;
        Ok(())
    }

    fn next(&mut self, _disk: &mut D) -> Result<(), Stop> {
        let place = stand(
            self.table,
            Place {
                chunk: self.chunk,
                at: self.at + 1,
            },
        );
        self.chunk = place.chunk;
        self.at = place.at;
        Ok(())
    }
}
