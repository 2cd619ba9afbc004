//! Room for a batch.
ghost use Rattle.std.specs.Prelude.{◌≡◌, ◌≢◌, ◌<◌, ◌+◌, ◌∷◌, ◌++◌, [], ℕ, List, length, IfOk, IfSome, OnSome, OnOk};
ghost use Rattle.mr_wal.specs.declared.operation.Operation.{Operation};
ghost use Rattle.mr_families.specs.Known.{AreAscending, AreKept, one_at};
ghost use Rattle.mr_families.specs.Changed.{SameButRooms};
ghost use Rattle.mr_families.specs.Batches.{size_of as size, AreKnown, AreAwaited};
ghost use Rattle.mr_families.specs.Rooms.{IsNeed, AreNeeds, HasRoom};

use crate::need::Need;
use crate::numbered::Numbered;
use crate::places::place_of;
use mr_base::Memory;
use mr_wal::Operation;
use std::alloc::Global;

/// The bytes of an operation's key and value.
fn size_of(operation: &Operation) -> Option<usize>
    ensures { IfSome result (λ n. n ≡ size operation.now) }
{
    match &operation.put {
        Some(value) => operation.key.len().checked_add(value.len()),
        None => Some(operation.key.len()),
    }
}

/// One entry more, of so many bytes.
fn with_entry(need: Need, size: usize) -> Option<Need>
    ensures entries { IfSome result (λ n. n.entries ≡ need.entries + 1) }
    ensures bytes { IfSome result (λ n. n.bytes ≡ need.bytes + size) }
{
    let entries = need.entries.checked_add(1)?;
    let bytes = need.bytes.checked_add(size)?;
    Some(Need { entries, bytes })
}

/// Adds what an operation needs to what its family does; None where that is past a count.
fn count_one(needs: &mut Vec<Need>, list: &[Numbered], operation: &Operation) -> Option<()>
    requires ascending { AreAscending list.now }
    requires as_many { length needs.old.items ≡ length list.now }
    ensures as_many { length needs.new.items ≡ length list.now }
    ensures counted { (os : List Operation) → AreNeeds list.now os needs.old.items → OnSome result (AreNeeds list.now (os ++ operation.now ∷ []) needs.new.items) }
{
    let Ok(place) = place_of(list, operation.family) else {
        return Some(());
    };
    let size = size_of(operation)?;
    needs[place] = with_entry(needs[place], size)?;
    Some(())
}

/// What each family needs for a batch, by one pass over it; None where that is past a count. Takes memory.
fn needs_of(alloc: Global, list: &[Numbered], batch: &[Operation]) -> Result<Vec<Need>, Memory>
    requires { AreAscending list.now }
    ensures { IfOk result (λ needs. AreNeeds list.now batch.now needs.items) }
{
    let none = Need {
        entries: 0,
        bytes: 0,
    };
    let mut needs = vec![in alloc; none; list.len()]?;
    'counting: for i in 0..batch.len() {
        let Some(()) = count_one(&mut needs, list, &batch[i]) else {
            return Err(Memory);
        };
    }
    Ok(needs)
}

/// Makes room in the family at a place. Takes memory.
fn reserve_at(list: &mut Vec<Numbered>, place: usize, need: Need) -> Result<(), Memory>
    requires kept { AreKept list.old.items }
    requires place { place < length list.old.items }
    ensures kept { AreKept list.new.items }
    ensures same { SameButRooms list.old.items list.new.items }
    ensures others { (i : ℕ) → i ≢ place → one_at list.new.items i ≡ one_at list.old.items i }
    ensures room { (os : List Operation) → IsNeed (one_at list.old.items place).number os need → OnOk result (HasRoom os (one_at list.new.items place)) }
{
    list[place].reserve(need)
}

/// Makes room for a batch in each of its families. Takes memory.
pub fn reserve_in(
    list: &mut Vec<Numbered>,
    alloc: Global,
    batch: &[Operation],
) -> Result<(), Memory>
    requires kept { AreKept list.old.items }
    requires known { AreKnown list.old.items batch.now }
    ensures kept { AreKept list.new.items }
    ensures same { SameButRooms list.old.items list.new.items }
    ensures awaited { OnOk result (AreAwaited list.new.items batch.now) }
{
    let needs = needs_of(alloc, list, batch)?;
    'reserving: for i in 0..list.len() {
        reserve_at(list, i, needs[i])?;
    }
    Ok(())
}
