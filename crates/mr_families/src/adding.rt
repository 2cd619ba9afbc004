//! Batches into families.
ghost use Rattle.std.specs.Prelude.{◌≡◌, ◌≤◌, ◌<◌, ◌∷◌, [], true};
ghost use Rattle.mr_families.specs.Known.{AreKept, family_at, is_known};
ghost use Rattle.mr_families.specs.Batches.{size_of as size, AreAwaited, Added};

use crate::numbered::Numbered;
use crate::places::place_of;
use mr_wal::Operation;

/// Adds one operation to its family, which has room for it.
fn insert_one(list: &mut Vec<Numbered>, item: &Operation, sequence: u64)
    requires kept { AreKept list.old.items }
    requires known { is_known list.old.items item.now.family ≡ true }
    requires entries { 0 < (family_at list.old.items item.now.family).memtable.entries }
    requires bytes { size item.now ≤ (family_at list.old.items item.now.family).memtable.bytes }
    ensures kept { AreKept list.new.items }
    ensures added { Added sequence (item.now ∷ []) list.old.items list.new.items }
{
    match place_of(list, item.family) {
        Ok(place) => list[place].insert(item, sequence),
        // No number that isn't known comes here.
        Err(_) => {}
    }
}

/// Adds a batch, in order. Takes no memory, only the room that was made for it.
pub fn add_in(list: &mut Vec<Numbered>, batch: &[Operation], sequence: u64)
    requires kept { AreKept list.old.items }
    requires awaited { AreAwaited list.old.items batch.now }
    ensures kept { AreKept list.new.items }
    ensures added { Added sequence batch.now list.old.items list.new.items }
{
    'adding: for i in 0..batch.len() {
        insert_one(list, &batch[i], sequence);
    }
}
