//! Look-ups of each key of each family at several numbers.
use crate::filling::{fill, five};
use crate::steps::{BATCHES, FAMILIES, KEYS, Step, newest};
use mr_base::Stop;
use mr_block::Found;
use mr_families::Families;
use mr_memhost::MemHost;
use std::alloc::Global;
use std::test::Fail;

/// Whether a look-up found this step, or none.
fn is_right(found: Option<Found>, step: Option<Step>) -> bool {
    match (found, step) {
        (None, None) => true,
        (Some(found), Some(step)) => is_step(&found, step),
        _ => false,
    }
}

fn is_step(found: &Found, step: Step) -> bool {
    found.key() == [step.key].as_slice()
        && found.sequence() == step.sequence
        && found.is_put() == step.put.is_some()
        && match step.put {
            Some(byte) => found.value() == [byte; 9].as_slice(),
            None => found.value().is_empty(),
        }
}

/// Whether all keys of a family are found at a number.
fn are_found(
    alloc: Global,
    families: &mut Families,
    steps: &[Step],
    family: u32,
    number: u64,
) -> Result<bool, Stop> {
    let mut host = MemHost::new(alloc);
    let mut is_so = true;
    for key in 0..KEYS + 2 {
        let found = families.get(alloc, &mut host, family, &[key], number)?;
        is_so = is_right(found, newest(steps, family, key, number)) && is_so;
    }
    Ok(is_so && host.reads() == 0)
}

/// Whether that is so of each family, and of two that aren't known.
fn are_all_found(
    alloc: Global,
    families: &mut Families,
    steps: &[Step],
    number: u64,
) -> Result<bool, Stop> {
    let mut is_so = true;
    for family in FAMILIES {
        is_so = are_found(alloc, families, steps, family, number)? && is_so;
    }
    is_so = are_found(alloc, families, &[], 3, number)? && is_so;
    is_so = are_found(alloc, families, &[], u32::MAX, number)? && is_so;
    Ok(is_so)
}

/// How many steps were made, where each is found at each sixth number.
fn found_of(alloc: Global, seed: u64) -> Result<Option<usize>, Stop> {
    let mut families = five(alloc)?;
    let steps = fill(alloc, &mut families, seed)?;
    let mut is_so = true;
    for sixth in 0..BATCHES / 6 + 2 {
        is_so = are_all_found(alloc, &mut families, &steps, 6 * sixth)? && is_so;
    }
    is_so = are_all_found(alloc, &mut families, &steps, u64::MAX)? && is_so;
    Ok(if is_so { Some(steps.len()) } else { None })
}

#[test]
fn steps_are_found(rt: HostRuntime) -> Result<(), Fail> {
    assert_eq!(rt; found_of(rt.alloc(), 1), Ok(Some(144)));
    assert_eq!(rt; found_of(rt.alloc(), 7_700_002), Ok(Some(143)));
    Ok(())
}
