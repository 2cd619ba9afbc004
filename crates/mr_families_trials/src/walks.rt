//! Walks over each family at several numbers.
use crate::filling::{fill, five};
use crate::steps::{BATCHES, FAMILIES, KEYS, Step, direction_of, newest, ordered};
use mr_base::Stop;
use mr_families::Families;
use mr_iter::{Cursor, Listed};
use mr_memhost::MemHost;
use std::alloc::Global;
use std::test::Fail;

/// Goes one version on where it stands on this step.
fn passes<C: Cursor<MemHost>>(
    host: &mut MemHost,
    cursor: &mut C,
    step: Step,
) -> Result<bool, Stop> {
    if cursor.at_end() {
        return Ok(false);
    }
    if cursor.key() != [step.key].as_slice() || cursor.sequence() != step.sequence {
        return Ok(false);
    }
    match cursor.next(host) {
        Ok(()) => Ok(true),
        Err(stop) => Err(stop),
    }
}

/// Whether a cursor goes over the puts of a family that stand at a number, from key place first on.
fn goes_over<C: Cursor<MemHost>>(
    host: &mut MemHost,
    cursor: &mut C,
    steps: &[Step],
    family: u32,
    first: u8,
    number: u64,
) -> Result<bool, Stop> {
    let mut is_so = true;
    for i in first..KEYS {
        let key = ordered(direction_of(family), i);
        if let Some(step) = newest(steps, family, key, number) {
            if step.put.is_some() {
                is_so = passes(host, cursor, step)? && is_so;
            }
        }
    }
    Ok(is_so)
}

/// Whether a walk from a key's place on shows what stands at a number, and nothing else.
fn is_walked(
    alloc: Global,
    families: &Families,
    steps: &[Step],
    family: u32,
    first: u8,
    number: u64,
) -> Result<bool, Stop> {
    let mut host = MemHost::new(alloc);
    let mut cursor = families.cursor(alloc, family, number)?;
    cursor.seek(&mut host, &[ordered(direction_of(family), first)])?;
    let is_so = goes_over(&mut host, &mut cursor, steps, family, first, number)?;
    Ok(is_so && cursor.at_end())
}

/// Whether that is so of each family, and of one that isn't known.
fn are_walked(
    alloc: Global,
    families: &Families,
    steps: &[Step],
    first: u8,
    number: u64,
) -> Result<bool, Stop> {
    let mut is_so = true;
    for family in FAMILIES {
        is_so = is_walked(alloc, families, steps, family, first, number)? && is_so;
    }
    is_so = is_walked(alloc, families, &[], 3, first, number)? && is_so;
    Ok(is_so)
}

/// Whether that is so at each number that 7 divides, from the first key and from a middle one on.
fn walks_of(alloc: Global, seed: u64) -> Result<bool, Stop> {
    let mut families = five(alloc)?;
    let steps = fill(alloc, &mut families, seed)?;
    let mut is_so = true;
    for seventh in 0..BATCHES / 7 + 2 {
        is_so = are_walked(alloc, &families, &steps, 0, 7 * seventh)? && is_so;
        is_so = are_walked(alloc, &families, &steps, 11, 7 * seventh)? && is_so;
    }
    Ok(is_so)
}

#[test]
fn families_are_walked(rt: HostRuntime) -> Result<(), Fail> {
    assert_eq!(rt; walks_of(rt.alloc(), 12), Ok(true));
    assert_eq!(rt; walks_of(rt.alloc(), 99_000_000_000), Ok(true));
    Ok(())
}
