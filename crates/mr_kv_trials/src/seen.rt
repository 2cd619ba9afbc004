//! What look-ups and cursors of a store show.
ghost use Rattle.mr_kv_trials.specs.Silent.{IsReadyOver};

use crate::untold::Untold;
use mr_base::{Memory, Stop};
use mr_block::Found;
use mr_iter::{Cursor, Listed};
use mr_kv::Kv;
use std::alloc::Global;

/// No walk here is longer.
const LONG: usize = 20;

/// Adds a key and a value, each with a `/` behind it.
fn add_pair(out: &mut Vec<u8>, key: &[u8], value: &[u8]) -> Result<(), Memory> {
    out.extend_from_slice(key)?;
    out.extend_from_slice(b"/")?;
    out.extend_from_slice(value)?;
    out.extend_from_slice(b"/")?;
    Ok(())
}

/// Adds what a cursor stands on, and goes one version on.
fn pass<C: Cursor<Untold>>(
    disk: &mut Untold,
    cursor: &mut C,
    out: &mut Vec<u8>,
) -> Result<(), Stop> {
    if cursor.at_end() {
        return Ok(());
    }
    add_pair(out, cursor.key(), cursor.value())?;
    cursor.next(disk)
}

/// Adds what a cursor shows from a key's place on.
fn walk<C: Cursor<Untold>>(
    disk: &mut Untold,
    cursor: &mut C,
    from: &[u8],
    out: &mut Vec<u8>,
) -> Result<(), Stop> {
    cursor.seek(disk, from)?;
    for _ in 0..LONG {
        pass(disk, cursor, out)?;
    }
    Ok(())
}

/// All keys and values of a family at a number from the first version on that isn't before a key.
pub fn walked(
    alloc: Global,
    disk: &mut Untold,
    kv: &Kv,
    family: u32,
    from: &[u8],
    at: u64,
) -> Result<Vec<u8>, Stop> {
    let mut out = Vec::new(alloc);
    let mut cursor = kv.cursor(alloc, family, at)?;
    walk(disk, &mut cursor, from, &mut out)?;
    Ok(out)
}

/// A version's sequence number, and the value of a put.
pub type Seen<'a> = (u64, Option<&'a [u8]>);

/// Whether this is what was found of a key.
fn is_it(found: &Option<Found>, key: &[u8], seen: Option<Seen<'_>>) -> bool {
    match (found, seen) {
        (None, None) => true,
        (Some(found), Some((sequence, put))) => {
            found.key() == key
                && found.sequence() == sequence
                && found.is_put() == put.is_some()
                && found.value() == put.unwrap_or(&[])
        }
        _ => false,
    }
}

/// Whether a look-up at a number finds this.
pub fn is_found(
    alloc: Global,
    disk: &mut Untold,
    kv: &mut Kv,
    family: u32,
    key: &[u8],
    at: u64,
    seen: Option<Seen<'_>>,
) -> Result<bool, Stop>
    requires { IsReadyOver disk.old.host kv.old }
    ensures { IsReadyOver disk.new.host kv.new }
{
    let found = kv.get(alloc, disk, family, key, at)?;
    Ok(is_it(&found, key, seen))
}
