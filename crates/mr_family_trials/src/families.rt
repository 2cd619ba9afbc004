//! Look-ups in a family of one memtable, two newest runs and three runs of two levels.
use crate::steps::{KEYS, STEPS, insert_steps, is_put, newest, value_of, write_run};
use mr_base::{Direction, Stop};
use mr_block::Found;
use mr_compact::Span;
use mr_family::Family;
use mr_memhost::MemHost;
use std::alloc::Global;
use std::test::Fail;

fn open_steps(
    alloc: Global,
    host: &mut MemHost,
    family: &mut Family,
    level: u8,
    file: u64,
    keys: [u8; 2],
    steps: [u64; 2],
) -> Result<(), Stop> {
    let info = write_run(alloc, host, file, family.direction(), keys, steps)?;
    family.open_run(alloc, host, level.min(4), &info)
}

/// The oldest 40 steps at level 2, the next 50 at level 1 in two runs, twice 25 in newest runs, which are opened in the wrong order, and the
/// other 60 in memory.
pub fn family_of(alloc: Global, host: &mut MemHost, direction: Direction) -> Result<Family, Stop> {
    let mut family = Family::new(alloc, direction)?;
    open_levels(alloc, host, &mut family)?;
    open_newest(alloc, host, &mut family)?;
    insert_steps(&mut family, 140, STEPS)?;
    Ok(family)
}

fn open_levels(alloc: Global, host: &mut MemHost, family: &mut Family) -> Result<(), Stop> {
    open_steps(alloc, host, family, 2, 16, [0, KEYS], [0, 40])?;
    open_steps(alloc, host, family, 1, 18, [20, KEYS], [40, 90])?;
    open_steps(alloc, host, family, 1, 17, [0, 20], [40, 90])
}

fn open_newest(alloc: Global, host: &mut MemHost, family: &mut Family) -> Result<(), Stop> {
    open_steps(alloc, host, family, 0, 20, [0, KEYS], [115, 140])?;
    open_steps(alloc, host, family, 0, 19, [0, KEYS], [90, 115])
}

/// Whether a look-up found the newest step.
fn is_right(found: Option<Found>, key: u8, number: u64) -> bool {
    let step = newest(key, number);
    match found {
        None => step == 0,
        Some(found) => {
            let value = value_of(step);
            found.key() == [key].as_slice()
                && found.sequence() == step
                && found.is_put() == is_put(step)
                && found.value() == if is_put(step) { value.as_slice() } else { &[] }
        }
    }
}

/// Whether all keys are found at a number.
fn are_found(
    alloc: Global,
    host: &mut MemHost,
    family: &mut Family,
    number: u64,
) -> Result<bool, Stop> {
    let mut is_so = true;
    for key in 0..KEYS + 2 {
        let found = family.get(alloc, host, &[key], number)?;
        is_so = is_right(found, key, number) && is_so;
    }
    Ok(is_so)
}

/// Whether that is so at each fifth number; and the reads of all of them.
fn reads_of_pass(
    alloc: Global,
    host: &mut MemHost,
    family: &mut Family,
) -> Result<Option<u64>, Stop> {
    let before = host.reads();
    let mut is_so = true;
    for fifth in 0..STEPS / 5 + 2 {
        is_so = are_found(alloc, host, family, 5 * fifth)? && is_so;
    }
    Ok(if is_so {
        Some(host.reads().saturating_sub(before))
    } else {
        None
    })
}

fn cold_and_warm(alloc: Global, direction: Direction) -> Result<[Option<u64>; 2], Stop> {
    let mut host = MemHost::new(alloc);
    let mut family = family_of(alloc, &mut host, direction)?;
    let cold = reads_of_pass(alloc, &mut host, &mut family)?;
    let warm = reads_of_pass(alloc, &mut host, &mut family)?;
    Ok([cold, warm])
}

/// Each of the five runs has one block, which is read once.
#[test]
fn steps_are_found_forward(rt: HostRuntime) -> Result<(), Fail> {
    assert_eq!(rt;
        cold_and_warm(rt.alloc(), Direction::Forward),
        Ok([Some(5), Some(0)])
    );
    Ok(())
}

#[test]
fn steps_are_found_in_reverse(rt: HostRuntime) -> Result<(), Fail> {
    assert_eq!(rt;
        cold_and_warm(rt.alloc(), Direction::Reverse),
        Ok([Some(5), Some(0)])
    );
    Ok(())
}

/// Three runs of keys from 20 on.
fn open_above(alloc: Global, host: &mut MemHost, family: &mut Family) -> Result<(), Stop> {
    open_steps(alloc, host, family, 0, 16, [20, KEYS], [0, 40])?;
    open_steps(alloc, host, family, 1, 17, [20, 30], [40, 90])?;
    open_steps(alloc, host, family, 1, 18, [30, KEYS], [40, 90])
}

/// A key that none of the runs of two levels can hold isn't looked for in them: the reads of a look-up of a key below 20.
fn reads_alone(alloc: Global) -> Result<u64, Stop> {
    let mut host = MemHost::new(alloc);
    let mut family = Family::new(alloc, Direction::Forward)?;
    open_above(alloc, &mut host, &mut family)?;
    let before = host.reads();
    let found = family.get(alloc, &mut host, &[10], STEPS)?;
    Ok(if found.is_none() {
        host.reads().saturating_sub(before)
    } else {
        u64::MAX
    })
}

#[test]
fn runs_without_the_key_are_not_read(rt: HostRuntime) -> Result<(), Fail> {
    assert_eq!(rt; reads_alone(rt.alloc()), Ok(0));
    Ok(())
}

/// The levels and files of the live runs, in one number of three digits each.
fn places(alloc: Global, direction: Direction) -> Result<u64, Stop> {
    let mut host = MemHost::new(alloc);
    let family = family_of(alloc, &mut host, direction)?;
    let spans = family.spans(alloc)?;
    Ok(told(spans.as_slice()))
}

fn told(spans: &[Span]) -> u64 {
    let mut all = 0u64;
    for span in spans {
        all = all
            .wrapping_mul(1000)
            .wrapping_add(span.level as u64 * 100)
            .wrapping_add(span.info.file);
    }
    all
}

#[test]
fn spans_are_told_by_level(rt: HostRuntime) -> Result<(), Fail> {
    assert_eq!(rt;
        places(rt.alloc(), Direction::Forward),
        Ok(20_019_117_118_216)
    );
    assert_eq!(rt;
        places(rt.alloc(), Direction::Reverse),
        Ok(20_019_118_117_216)
    );
    Ok(())
}
