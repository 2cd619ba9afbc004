//! The operations of family 0 in its memory.
ghost use Rattle.std.specs.Prelude.{◌≡◌, ◌≤◌, ◌<◌, ◌∷◌, List, IfSome, OnOk};
ghost use Rattle.mr_base.specs.declared.stop.Direction.TheVariants.{Forward};
ghost use Rattle.mr_wal.specs.declared.operation.Operation.{Operation};
ghost use Rattle.mr_family.specs.Family.{direction as direction_of};
ghost use Rattle.mr_families.specs.Batches.{size_of as size, with_operations};
ghost use Rattle.mr_stored.specs.Lists.{with_batches};
ghost use Rattle.mr_store_names.specs.Adding.{with_own};

use mr_base::Memory;
use mr_engine_log::Batched;
use mr_family::Family;
use mr_wal::Operation;

/// The bytes of an operation's key and value.
fn size_of(operation: &Operation) -> Option<usize>
    ensures { IfSome result (λ n. n ≡ size operation.now) }
{
    match &operation.put {
        Some(value) => operation.key.len().checked_add(value.len()),
        None => Some(operation.key.len()),
    }
}

/// Makes room for an operation. Takes memory.
fn make_room(family: &mut Family, operation: &Operation) -> Result<(), Memory>
    ensures levels { family.new.levels ≡ family.old.levels }
    ensures cached { family.new.cached ≡ family.old.cached }
    ensures versions { family.new.memtable.versions ≡ family.old.memtable.versions }
    ensures entries { OnOk result (0 < family.new.memtable.entries) }
    ensures bytes { OnOk result (size operation.now ≤ family.new.memtable.bytes) }
{
    let Some(bytes) = size_of(operation) else {
        return Err(Memory);
    };
    family.reserve(1, bytes)
}

/// Adds an operation for which there is room.
fn insert(family: &mut Family, operation: &Operation, sequence: u64)
    requires forward { direction_of family.old ≡ Forward }
    requires entries { 0 < family.old.memtable.entries }
    requires bytes { size operation.now ≤ family.old.memtable.bytes }
    ensures levels { family.new.levels ≡ family.old.levels }
    ensures cached { family.new.cached ≡ family.old.cached }
    ensures versions { family.new.memtable.versions ≡ with_own sequence operation.now family.old.memtable.versions }
{
    let item = operation.lend();
    family.insert(item.key, sequence, item.put);
}

/// Adds an operation, where it is one of family 0. Takes memory.
fn add_one(family: &mut Family, operation: &Operation, sequence: u64) -> Result<(), Memory>
    requires forward { direction_of family.old ≡ Forward }
    ensures levels { family.new.levels ≡ family.old.levels }
    ensures cached { family.new.cached ≡ family.old.cached }
    ensures versions { OnOk result ((more : List Operation) → with_operations Forward 0 sequence more family.new.memtable.versions ≡ with_operations Forward 0 sequence (operation.now ∷ more) family.old.memtable.versions) }
{
    if operation.family != 0 {
        return Ok(());
    }
    make_room(family, operation)?;
    insert(family, operation, sequence);
    Ok(())
}

/// Adds the operations of family 0 among these. Takes memory.
fn add_operations(
    family: &mut Family,
    operations: &[Operation],
    sequence: u64,
) -> Result<(), Memory>
    requires forward { direction_of family.old ≡ Forward }
    ensures levels { family.new.levels ≡ family.old.levels }
    ensures cached { family.new.cached ≡ family.old.cached }
    ensures versions { OnOk result (family.new.memtable.versions ≡ with_operations Forward 0 sequence operations.now family.old.memtable.versions) }
{
    'adding: for i in 0..operations.len() {
        add_one(family, &operations[i], sequence)?;
    }
    Ok(())
}

/// Adds the operations of family 0 in these batches. Takes memory.
pub fn add_batches(family: &mut Family, batches: &[Batched]) -> Result<(), Memory>
    requires forward { direction_of family.old ≡ Forward }
    ensures levels { family.new.levels ≡ family.old.levels }
    ensures cached { family.new.cached ≡ family.old.cached }
    ensures versions { OnOk result (family.new.memtable.versions ≡ with_batches Forward 0 batches.now family.old.memtable.versions) }
{
    'adding: for i in 0..batches.len() {
        let batch = &batches[i];
        add_operations(family, batch.operations.as_slice(), batch.sequence)?;
    }
    Ok(())
}
