//! Families that become known, and empty ones that are turned.
use crate::filling::add_steps;
use crate::steps::Step;
use mr_base::{Direction, Memory};
use mr_families::Families;
use std::alloc::Global;
use std::test::Fail;

/// The numbers that are known, each as three digits.
fn known(families: &Families) -> u64 {
    let mut all = 0u64;
    for place in 0..families.count() {
        all = all
            .wrapping_mul(1000)
            .wrapping_add(families.number_at(place) as u64);
    }
    all
}

fn known_after(alloc: Global) -> Result<[u64; 2], Memory> {
    let mut families = Families::new(alloc)?;
    let first = known(&families);
    for number in [700, 5, 0, 30, 5] {
        families.learn(alloc, number, Direction::Reverse)?;
    }
    Ok([first, known(&families)])
}

#[test]
fn numbers_rise(rt: HostRuntime) -> Result<(), Fail> {
    assert_eq!(rt; known_after(rt.alloc()), Ok([1, 1_005_030_700]));
    Ok(())
}

/// One put for a family under number 4.
fn put_one(alloc: Global, families: &mut Families, family: u32) -> Result<bool, Memory> {
    let step = Step {
        family,
        key: 8,
        sequence: 4,
        put: Some(1),
    };
    add_steps(alloc, families, &[step], 4)
}

/// The direction after this one was learnt.
fn learnt(
    alloc: Global,
    families: &mut Families,
    family: u32,
    direction: Direction,
) -> Result<Direction, Memory> {
    families.learn(alloc, family, direction)?;
    Ok(families.direction(family))
}

/// A family's direction as it is turned twice while it is empty, and once with a version.
fn turns(alloc: Global, family: u32) -> Result<[Direction; 3], Memory> {
    let mut families = Families::new(alloc)?;
    let first = learnt(alloc, &mut families, family, Direction::Forward)?;
    let second = learnt(alloc, &mut families, family, Direction::Reverse)?;
    put_one(alloc, &mut families, family)?;
    let third = learnt(alloc, &mut families, family, Direction::Forward)?;
    Ok([first, second, third])
}

#[test]
fn empty_families_are_turned(rt: HostRuntime) -> Result<(), Fail> {
    let expected = [Direction::Forward, Direction::Reverse, Direction::Reverse];
    assert_eq!(rt; turns(rt.alloc(), 1), Ok(expected));
    assert_eq!(rt; turns(rt.alloc(), 44), Ok(expected));
    Ok(())
}

/// Whether a put for a family was added, before the family is known and after; and whether there was nothing in memory then.
fn adds(alloc: Global, family: u32) -> Result<[bool; 4], Memory> {
    let mut families = Families::new(alloc)?;
    let before = put_one(alloc, &mut families, family)?;
    let was_empty = families.is_memory_empty();
    families.learn(alloc, family, Direction::Reverse)?;
    let after = put_one(alloc, &mut families, family)?;
    Ok([before, was_empty, after, families.is_memory_empty()])
}

#[test]
fn unknown_families_take_nothing(rt: HostRuntime) -> Result<(), Fail> {
    assert_eq!(rt; adds(rt.alloc(), 2), Ok([false, true, true, false]));
    assert_eq!(rt; adds(rt.alloc(), 1), Ok([true, false, true, false]));
    Ok(())
}

/// What is told of a number that isn't known.
fn told(alloc: Global, family: u32) -> Result<(bool, Direction), Memory> {
    let families = Families::new(alloc)?;
    Ok((families.is_known(family), families.direction(family)))
}

#[test]
fn unknown_families_are_forward(rt: HostRuntime) -> Result<(), Fail> {
    assert_eq!(rt; told(rt.alloc(), 2), Ok((false, Direction::Forward)));
    assert_eq!(rt; told(rt.alloc(), 1), Ok((true, Direction::Forward)));
    Ok(())
}
