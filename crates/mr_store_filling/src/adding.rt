//! Batches that count, in memory.
ghost use Rattle.std.specs.Prelude.{OnOk, ◌∷◌, []};
ghost use Rattle.mr_store_filling.specs.Filled.{HaveAdded};

use mr_base::Memory;
use mr_engine_log::Batched;
use mr_families::Families;
use mr_store_memory::learn_others;
use std::alloc::Global;

/// Adds one batch, for which room is made first. Takes memory.
fn add_batch(alloc: Global, families: &mut Families, batch: &Batched) -> Result<(), Memory>
    ensures { OnOk result (HaveAdded (batch.now ∷ []) families.old families.new) }
{
    let operations = batch.operations.as_slice();
    learn_others(alloc, families, operations)?;
    families.reserve(alloc, operations)?;
    families.add(operations, batch.sequence);
    Ok(())
}

/// Adds batches to the families, in order, each under its own sequence number. Families that aren't known become known, forward. Takes
/// memory.
pub fn add_batches(
    alloc: Global,
    families: &mut Families,
    batches: &[Batched],
) -> Result<(), Memory>
    ensures { OnOk result (HaveAdded batches.now families.old families.new) }
{
    'adding: for i in 0..batches.len() {
        add_batch(alloc, families, &batches[i])?;
    }
    Ok(())
}
