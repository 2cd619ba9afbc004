//! What is found in a manifest one of whose bytes is another.
use crate::files::{ADDED, host_of};
use mr_base::{Memory, Stop};
use mr_manifest::{Manifest, peek};
use std::alloc::Global;
use std::test::Fail;

/// There is no damage.
const SOUND: u8 = 255;

/// An answer that isn't among those that there are to be.
const WRONG: u8 = 254;

/// The place of the damage for each byte of `ADDED` whose lowest bit is changed.
const LOWEST_BIT: [u8; 99] = [
    SOUND, 0, 0, 0, 46, 14, 6, 6, 6, 6, 54, 54, 54, 54, 54, 54, 54, 54, 54, 28, SOUND, SOUND,
    SOUND, SOUND, SOUND, SOUND, SOUND, SOUND, 28, 28, 28, 28, 28, 28, 28, 28, 45, SOUND, SOUND,
    SOUND, SOUND, SOUND, SOUND, SOUND, SOUND, 46, SOUND, SOUND, SOUND, SOUND, SOUND, SOUND, SOUND,
    SOUND, SOUND, 54, 54, 54, 90, 59, SOUND, SOUND, SOUND, SOUND, SOUND, 54, 54, 54, 54, 54, 54,
    54, 54, SOUND, SOUND, SOUND, SOUND, SOUND, SOUND, SOUND, SOUND, SOUND, SOUND, SOUND, SOUND,
    SOUND, SOUND, SOUND, SOUND, 98, SOUND, SOUND, SOUND, SOUND, SOUND, SOUND, SOUND, SOUND, SOUND,
];

/// The same for the bit below the highest one.
const HIGH_BIT: [u8; 99] = [
    SOUND, 0, 0, 0, 0, 5, 6, 6, 6, 6, 10, 54, 54, 54, 54, 54, 54, 54, 54, 19, SOUND, SOUND, SOUND,
    SOUND, SOUND, SOUND, SOUND, SOUND, 28, 28, 28, 28, 28, 28, 28, 28, 36, SOUND, SOUND, SOUND,
    SOUND, SOUND, SOUND, SOUND, SOUND, 45, SOUND, SOUND, SOUND, SOUND, SOUND, SOUND, SOUND, SOUND,
    SOUND, 54, 54, 54, 54, 59, SOUND, SOUND, SOUND, SOUND, 64, 54, 54, 54, 54, 54, 54, 54, 54,
    SOUND, SOUND, SOUND, SOUND, SOUND, SOUND, SOUND, SOUND, SOUND, SOUND, SOUND, SOUND, SOUND,
    SOUND, SOUND, SOUND, 89, SOUND, SOUND, SOUND, SOUND, SOUND, SOUND, SOUND, SOUND, SOUND,
];

/// The same for the highest bit: numbers of files and the sequence number pass their bound too.
const HIGHEST_BIT: [u8; 99] = [
    SOUND, 0, 0, 0, 0, 5, 6, 6, 6, 6, 10, 54, 54, 54, 54, 54, 54, 54, 54, 19, SOUND, SOUND, SOUND,
    SOUND, SOUND, SOUND, SOUND, SOUND, 28, 28, 28, 28, 28, 28, 28, 28, 36, 37, SOUND, SOUND, SOUND,
    SOUND, SOUND, SOUND, SOUND, 45, 46, SOUND, SOUND, SOUND, SOUND, SOUND, SOUND, SOUND, SOUND, 54,
    54, 54, 54, 59, SOUND, SOUND, SOUND, SOUND, 64, 54, 54, 54, 54, 54, 54, 54, 54, SOUND, SOUND,
    SOUND, SOUND, SOUND, SOUND, SOUND, SOUND, SOUND, SOUND, SOUND, SOUND, SOUND, SOUND, SOUND,
    SOUND, 89, 90, SOUND, SOUND, SOUND, SOUND, SOUND, SOUND, SOUND, SOUND,
];

/// The place that an answer tells.
fn place_of<T: Drop>(answer: Result<T, Stop>) -> u8 {
    match answer {
        Ok(_) => SOUND,
        Err(Stop::Damaged { file: 0, at }) if at < 254 => at as u8,
        Err(_) => WRONG,
    }
}

/// The place of the damage that reading these bytes tells, as opening them does. What is damaged is left as it is.
fn damage_in(alloc: Global, bytes: &[u8]) -> Result<u8, Memory> {
    let mut host = host_of(alloc, bytes)?;
    let told = place_of(peek(alloc, &mut host));
    let is_left = host.file(0) == bytes && host.syncs() == 0;
    let opened = place_of(Manifest::open(alloc, &mut host));
    let is_kept = opened == SOUND || host.file(0) == bytes && host.syncs() == 0;
    if is_left && is_kept && opened == told {
        Ok(told)
    } else {
        Ok(WRONG)
    }
}

/// The same for `ADDED` with a byte at a place changed by these bits.
fn damage_with(alloc: Global, at: usize, bits: u8) -> Result<u8, Memory> {
    let mut bytes = ADDED;
    if let Some(byte) = bytes.get_mut(at) {
        *byte ^= bits;
    }
    damage_in(alloc, &bytes)
}

/// Whether each byte that is changed by these bits is damage where it is to be.
fn is_told(alloc: Global, bits: u8, places: &[u8]) -> bool {
    let mut is_right = true;
    for (at, place) in places.iter().enumerate() {
        is_right = is_right && damage_with(alloc, at, bits) == Ok(*place);
    }
    is_right
}

#[test]
fn each_byte_is_changed_to_three_others(rt: HostRuntime) -> Result<(), Fail> {
    let alloc = rt.alloc();
    assert!(rt; is_told(alloc, 0x01, &LOWEST_BIT));
    assert!(rt; is_told(alloc, 0x40, &HIGH_BIT));
    assert!(rt; is_told(alloc, 0x80, &HIGHEST_BIT));
    Ok(())
}

/// How many of the places in a table aren't `SOUND`.
fn count_damaged(places: &[u8]) -> usize {
    places.iter().filter(|place| **place != SOUND).count()
}

#[test]
fn damage_is_counted(rt: HostRuntime) -> Result<(), Fail> {
    let counts = [
        count_damaged(&LOWEST_BIT),
        count_damaged(&HIGH_BIT),
        count_damaged(&HIGHEST_BIT),
    ];
    assert_eq!(rt; counts, [43, 44, 47]);
    Ok(())
}

#[test]
fn an_open_gate_alone_ends_the_records(rt: HostRuntime) -> Result<(), Fail> {
    assert_eq!(rt; damage_with(rt.alloc(), 98, 0xA7), Ok(SOUND));
    Ok(())
}

#[test]
fn what_is_cut_short_is_damage_at_its_record(rt: HostRuntime) -> Result<(), Fail> {
    for length in 56..99 {
        assert_eq!(rt; damage_in(rt.alloc(), &ADDED[..length]), Ok(54));
    }
    Ok(())
}
