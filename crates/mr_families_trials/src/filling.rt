//! Families that take random batches.
ghost use Rattle.std.specs.Prelude.{◌≡◌, true};
ghost use Rattle.mr_families.specs.Batches.{AreKnown};

use crate::steps::{BATCHES, FAMILIES, Step, batch_of, direction_of, next_seed};
use mr_base::{Blob, Memory};
use mr_families::Families;
use mr_wal::Operation;
use std::alloc::Global;

fn operation_of(alloc: Global, step: Step) -> Result<Operation, Memory> {
    let key = Blob::from_slice(alloc, &[step.key])?;
    let put = match step.put {
        Some(byte) => Some(Blob::from_slice(alloc, &[byte; 9])?),
        None => None,
    };
    Ok(Operation {
        family: step.family,
        key,
        put,
    })
}

fn operations_of(alloc: Global, steps: &[Step]) -> Result<Vec<Operation>, Memory> {
    let mut batch = Vec::new(alloc);
    for step in steps {
        let operation = operation_of(alloc, *step)?;
        let Ok(()) = batch.push(operation) else {
            return Err(Memory);
        };
    }
    Ok(batch)
}

/// Whether the families of a batch are known.
fn are_known(families: &Families, batch: &[Operation]) -> bool
    ensures { result ≡ true → AreKnown families.now batch.now }
{
    'looking: for i in 0..batch.len() {
        if !families.is_known(batch[i].family) {
            return false;
        }
    }
    true
}

/// Adds a batch and answers true, unless one of its families isn't known.
fn add(
    alloc: Global,
    families: &mut Families,
    batch: &[Operation],
    sequence: u64,
) -> Result<bool, Memory> {
    if !are_known(families, batch) {
        return Ok(false);
    }
    families.reserve(alloc, batch)?;
    families.add(batch, sequence);
    Ok(true)
}

/// Adds these steps under one number.
pub fn add_steps(
    alloc: Global,
    families: &mut Families,
    steps: &[Step],
    sequence: u64,
) -> Result<bool, Memory> {
    let batch = operations_of(alloc, steps)?;
    add(alloc, families, &batch, sequence)
}

/// The five families, empty.
pub fn five(alloc: Global) -> Result<Families, Memory> {
    let mut families = Families::new(alloc)?;
    for number in FAMILIES {
        families.learn(alloc, number, direction_of(number))?;
    }
    Ok(families)
}

/// Fills families with the batches that follow a seed, and answers their steps.
pub fn fill(alloc: Global, families: &mut Families, seed: u64) -> Result<Vec<Step>, Memory> {
    let mut all = Vec::new(alloc);
    let mut seed = seed;
    for before in 0..BATCHES {
        let steps = batch_of(alloc, seed, before + 1)?;
        if add_steps(alloc, families, &steps, before + 1)? {
            all.extend_from_slice(&steps)?;
        }
        seed = next_seed(next_seed(seed ^ 0x5555));
    }
    Ok(all)
}
