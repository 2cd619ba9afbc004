//! Families that a batch makes ready for it.
ghost use Rattle.std.specs.Prelude.{◌≡◌, ◌∷◌, [], ℕ, OnOk};
ghost use Rattle.mr_families.specs.Known.{family_at};
ghost use Rattle.mr_families.specs.Batches.{AreKnown, AreAwaited};
ghost use Rattle.mr_store_memory.specs.Knows.{Knows};
ghost use Rattle.mr_store_memory.specs.Readied.{Readied, AreTurnedBy};

use crate::naming::name_of;
use mr_base::{Direction, Memory};
use mr_families::Families;
use mr_wal::Operation;
use std::alloc::Global;

/// Gives the family that an operation names its direction, where it names one. Takes memory.
fn learn_name(alloc: Global, families: &mut Families, operation: &Operation) -> Result<(), Memory>
    ensures readied { Readied (operation.now ∷ []) families.old families.new }
    ensures turned { OnOk result (AreTurnedBy (operation.now ∷ []) families.old families.new) }
{
    match name_of(operation) {
        Some((number, direction)) => families.learn(alloc, number, direction),
        None => Ok(()),
    }
}

/// Gives each family that a batch names its direction. Takes memory.
fn learn_names(alloc: Global, families: &mut Families, batch: &[Operation]) -> Result<(), Memory>
    ensures readied { Readied batch.now families.old families.new }
    ensures turned { OnOk result (AreTurnedBy batch.now families.old families.new) }
{
    'learning: for i in 0..batch.len() {
        learn_name(alloc, families, &batch[i])?;
    }
    Ok(())
}

/// Makes a number known; an empty forward family stands for one that isn't. Takes memory.
pub fn learn_number(alloc: Global, families: &mut Families, number: u32) -> Result<(), Memory>
    ensures same { (f : ℕ) → family_at families.new f ≡ family_at families.old f }
    ensures known { OnOk result (Knows number families.old families.new) }
{
    if families.is_known(number) {
        return Ok(());
    }
    families.learn(alloc, number, Direction::Forward)
}

/// Makes the families of a batch known. Takes memory.
pub fn learn_others(
    alloc: Global,
    families: &mut Families,
    batch: &[Operation],
) -> Result<(), Memory>
    ensures same { (f : ℕ) → family_at families.new f ≡ family_at families.old f }
    ensures known { OnOk result (AreKnown families.new batch.now) }
{
    'learning: for i in 0..batch.len() {
        learn_number(alloc, families, batch[i].family)?;
    }
    Ok(())
}

/// Makes the families of a batch ready for it: those that it names have their direction, the others are known, and there is room. Takes
/// memory; after an error no family has other versions.
pub fn make_ready(alloc: Global, families: &mut Families, batch: &[Operation]) -> Result<(), Memory>
    ensures readied { Readied batch.now families.old families.new }
    ensures turned { OnOk result (AreTurnedBy batch.now families.old families.new) }
    ensures awaited { OnOk result (AreAwaited families.new batch.now) }
{
    learn_names(alloc, families, batch)?;
    learn_others(alloc, families, batch)?;
    families.reserve(alloc, batch)
}
