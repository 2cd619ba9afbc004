//! Walks over a family at several numbers.
ghost use Rattle.std.specs.Prelude.{◌≡◌, IsSome};

use crate::families::family_of;
use crate::steps::{KEYS, STEPS, is_put, newest, ordered};
use mr_base::{Direction, Stop};
use mr_family::Family;
use mr_iter::{Cursor, Listed};
use mr_memhost::MemHost;
use std::alloc::Global;
use std::test::Fail;

/// The step of a key that a view at a number shows, or 0.
fn shown(key: u8, number: u64) -> u64 {
    let step = newest(key, number);
    if step > 0 && is_put(step) { step } else { 0 }
}

/// Goes one version on where it stands on this step of a key.
fn passes<C: Cursor<MemHost>>(
    host: &mut MemHost,
    cursor: &mut C,
    key: u8,
    step: u64,
) -> Result<bool, Stop> {
    if cursor.at_end() {
        return Ok(false);
    }
    if cursor.key() != [key].as_slice() || cursor.sequence() != step {
        return Ok(false);
    }
    match cursor.next(host) {
        Ok(()) => Ok(true),
        Err(stop) => Err(stop),
    }
}

/// Whether a walk from a key's place on shows what stands at a number, and nothing else.
fn is_walked(
    alloc: Global,
    host: &mut MemHost,
    family: &Family,
    first: u8,
    number: u64,
) -> Result<bool, Stop> {
    let direction = family.direction();
    let mut cursor = family.cursor(alloc, number)?;
    cursor.seek(host, &[ordered(direction, 0, KEYS, first.min(KEYS - 1))])?;
    let mut is_so = true;
    for i in first.min(KEYS - 1)..KEYS {
        let key = ordered(direction, 0, KEYS, i);
        let step = shown(key, number);
        if step > 0 {
            is_so = passes(host, &mut cursor, key, step)? && is_so;
        }
    }
    Ok(is_so && cursor.at_end())
}

/// Whether that is so at each number that 7 divides, from the first key and from key 17 on.
fn are_walked(alloc: Global, direction: Direction) -> Result<bool, Stop> {
    let mut host = MemHost::new(alloc);
    let family = family_of(alloc, &mut host, direction)?;
    let mut is_so = true;
    for seventh in 0..STEPS / 7 + 2 {
        is_so = is_walked(alloc, &mut host, &family, 0, 7 * seventh)? && is_so;
        is_so = is_walked(alloc, &mut host, &family, 17, 7 * seventh)? && is_so;
    }
    Ok(is_so)
}

#[test]
fn walks_forward(rt: HostRuntime) -> Result<(), Fail> {
    assert_eq!(rt; are_walked(rt.alloc(), Direction::Forward), Ok(true));
    Ok(())
}

#[test]
fn walks_in_reverse(rt: HostRuntime) -> Result<(), Fail> {
    assert_eq!(rt; are_walked(rt.alloc(), Direction::Reverse), Ok(true));
    Ok(())
}
