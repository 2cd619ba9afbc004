//! What a store shows behind random steps, compared with the list beside it.
ghost use Rattle.mr_kv_trials.specs.Silent.{IsReadyOver};

use crate::beside::{Beside, low};
use crate::random::{KEYS, run};
use crate::seen::{is_found, walked};
use crate::untold::Untold;
use mr_base::{Memory, Stop};
use mr_kv::Kv;
use std::alloc::Global;
use std::test::Fail;

/// The family whose keys are in reverse.
const REVERSE: u32 = 3;

/// Whether a look-up finds what the list has.
fn is_key_found(
    alloc: Global,
    disk: &mut Untold,
    kv: &mut Kv,
    beside: &Beside,
    family: u32,
    key: u8,
    at: u64,
) -> Result<bool, Stop>
    requires { IsReadyOver disk.old.host kv.old }
    ensures { IsReadyOver disk.new.host kv.new }
{
    let newest = beside.newest(family, key, at);
    let Some(one) = newest else {
        return is_found(alloc, disk, kv, family, &[key], at, None);
    };
    let value = [low(one.sequence)];
    let put = if one.put {
        Some(value.as_slice())
    } else {
        None
    };
    is_found(
        alloc,
        disk,
        kv,
        family,
        &[key],
        at,
        Some((one.sequence, put)),
    )
}

/// Whether that is so of each key.
fn are_keys_found(
    alloc: Global,
    disk: &mut Untold,
    kv: &mut Kv,
    beside: &Beside,
    family: u32,
    at: u64,
) -> Result<bool, Stop>
    requires { IsReadyOver disk.old.host kv.old }
    ensures { IsReadyOver disk.new.host kv.new }
{
    let mut is_so = true;
    'finding: for key in 0..KEYS {
        is_so = is_key_found(alloc, disk, kv, beside, family, key, at)? && is_so;
    }
    Ok(is_so)
}

/// The key at a place in the family's order.
fn ordered(family: u32, place: u8) -> u8 {
    if family == REVERSE {
        (KEYS - 1).saturating_sub(place)
    } else {
        place
    }
}

/// The keys and values that stand at a number by the list, each with a `/` behind it.
fn listed(alloc: Global, beside: &Beside, family: u32, at: u64) -> Result<Vec<u8>, Memory> {
    let mut out = Vec::new(alloc);
    for place in 0..KEYS {
        let key = ordered(family, place);
        if let Some(one) = beside.newest(family, key, at) {
            if one.put {
                out.extend_from_slice(&[key, b'/', low(one.sequence), b'/'])?;
            }
        }
    }
    Ok(out)
}

/// Whether a cursor walks over just these.
fn is_walked(
    alloc: Global,
    disk: &mut Untold,
    kv: &Kv,
    beside: &Beside,
    family: u32,
    at: u64,
) -> Result<bool, Stop> {
    let listed = listed(alloc, beside, family, at)?;
    let walked = walked(alloc, disk, kv, family, &[ordered(family, 0)], at)?;
    Ok(walked.as_slice() == listed.as_slice())
}

/// Whether look-ups and a cursor of a family show what the list has.
fn is_family_shown(
    alloc: Global,
    disk: &mut Untold,
    kv: &mut Kv,
    beside: &Beside,
    family: u32,
    at: u64,
) -> Result<bool, Stop>
    requires { IsReadyOver disk.old.host kv.old }
    ensures { IsReadyOver disk.new.host kv.new }
{
    let is_walk = is_walked(alloc, disk, kv, beside, family, at)?;
    let are_keys = are_keys_found(alloc, disk, kv, beside, family, at)?;
    Ok(is_walk && are_keys)
}

/// Whether each of the three families is shown so at each fifth number, and the last number is the list's.
fn are_shown(alloc: Global, seed: u64) -> Result<bool, Stop> {
    let mut disk = Untold::new(alloc);
    let mut beside = Beside::new(alloc);
    let mut kv = run(alloc, &mut disk, &mut beside, seed)?;
    let mut is_so = kv.snapshot() == beside.last;
    'showing: for turn in 0..30u32 {
        let at = (turn / 3) as u64 * 5;
        let family = 2 + turn % 3;
        is_so = is_family_shown(alloc, &mut disk, &mut kv, &beside, family, at)? && is_so;
    }
    Ok(is_so)
}

#[test]
fn random_steps_are_shown(rt: HostRuntime) -> Result<(), Fail> {
    for seed in [1, 2, 3] {
        assert_eq!(rt; are_shown(rt.alloc(), seed), Ok(true));
    }
    Ok(())
}
