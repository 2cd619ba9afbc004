//! Random steps, each a version of a key of a family, in a plain list, and what is to be seen of them.
use mr_base::{Direction, Memory};
use std::alloc::Global;

/// The keys are the bytes below this one.
pub const KEYS: u8 = 24;

/// The batches are numbered from 1 to this one.
pub const BATCHES: u64 = 60;

/// The numbers of the families.
pub const FAMILIES: [u32; 5] = [0, 1, 5, 9, 70_000];

/// The direction of a family.
pub fn direction_of(family: u32) -> Direction {
    match family {
        1 | 5 | 70_000 => Direction::Reverse,
        _ => Direction::Forward,
    }
}

/// A put of a byte for a key of a family, or a deletion.
#[derive(Clone, Copy)]
pub struct Step {
    pub family: u32,
    pub key: u8,
    pub sequence: u64,
    pub put: Option<u8>,
}

/// The next seed.
pub fn next_seed(seed: u64) -> u64 {
    seed.wrapping_mul(6_364_136_223_846_793_005)
        .wrapping_add(1_442_695_040_888_963_407)
}

fn family_of(draw: u64) -> u32 {
    match draw % 5 {
        0 => 0,
        1 => 1,
        2 => 5,
        3 => 9,
        _ => 70_000,
    }
}

/// A step at a place of its batch. No two places have the same key.
fn step_of(seed: u64, sequence: u64, place: u64) -> Step {
    let draw = seed >> 33;
    Step {
        family: family_of(draw),
        key: (draw / 5 % 6 * 4 + place % 4) as u8,
        sequence,
        put: if draw / 32 % 4 == 0 {
            None
        } else {
            Some((draw / 128 % 256) as u8)
        },
    }
}

/// The steps of a batch, one to four of them. Takes memory.
pub fn batch_of(alloc: Global, seed: u64, sequence: u64) -> Result<Vec<Step>, Memory> {
    let mut steps = Vec::new(alloc);
    let mut seed = next_seed(seed);
    for place in 0..(seed >> 40) % 4 + 1 {
        seed = next_seed(seed);
        let Ok(()) = steps.push(step_of(seed, sequence, place)) else {
            return Err(Memory);
        };
    }
    Ok(steps)
}

/// The newest step of a key of a family that isn't past a number. The steps are in the order in which they were made.
pub fn newest(steps: &[Step], family: u32, key: u8, number: u64) -> Option<Step> {
    let mut last = None;
    for step in steps {
        if step.family == family && step.key == key && step.sequence <= number {
            last = Some(*step);
        }
    }
    last
}

/// Key i in a direction.
pub fn ordered(direction: Direction, i: u8) -> u8 {
    match direction {
        Direction::Forward => i,
        Direction::Reverse => KEYS.saturating_sub(1).saturating_sub(i),
    }
}
