//! A family in reverse, and a key that is put and deleted.
ghost use Rattle.mr_kv_trials.specs.Silent.{IsReadyOver};

use crate::calls::write;
use crate::fresh::fresh;
use crate::made::add;
use crate::seen::{is_found, walked};
use crate::untold::Untold;
use mr_base::{Memory, Stop};
use mr_kv::Kv;
use mr_wal::Batch;
use sqlite_items::Items;
use std::alloc::Global;
use std::test::Fail;

/// Names family 2, and puts three keys in it.
fn reversed(alloc: Global) -> Result<Batch, Memory> {
    let mut batch = Items::new(alloc);
    add(
        alloc,
        &mut batch,
        0,
        &[0, 0, 0, 3, 0, 0, 0, 2],
        Some(b"rev:a"),
    )?;
    for key in [&b"a"[..], b"a\0", b"b"] {
        add(alloc, &mut batch, 2, key, Some(b"v"))?;
    }
    Ok(batch)
}

fn walk_of_three(alloc: Global) -> Result<Vec<u8>, Stop> {
    let mut disk = Untold::new(alloc);
    let mut kv = fresh(alloc, &mut disk, 0)?;
    write(alloc, &mut disk, &mut kv, reversed(alloc)?)?;
    walked(alloc, &mut disk, &kv, 2, b"c", 1)
}

#[test]
fn keys_of_a_family_in_reverse(rt: HostRuntime) -> Result<(), Fail> {
    let walk = walk_of_three(rt.alloc());
    assert!(rt; walk.is_ok());
    let Ok(walk) = walk else { return Ok(()) };
    assert_eq!(rt; walk.as_slice(), b"b/v/a\0/v/a/v/".as_slice());
    Ok(())
}

/// A batch on key `a` of family 1 alone.
fn of_one(alloc: Global, put: Option<&[u8]>) -> Result<Batch, Memory> {
    let mut batch = Items::new(alloc);
    add(alloc, &mut batch, 1, b"a", put)?;
    Ok(batch)
}

/// Whether the key isn't there at 0, has its value at 1, and is deleted at 2 and behind it.
fn is_put_and_deleted(alloc: Global) -> Result<bool, Stop> {
    let mut disk = Untold::new(alloc);
    let mut kv = fresh(alloc, &mut disk, 0)?;
    write(alloc, &mut disk, &mut kv, of_one(alloc, Some(&[1]))?)?;
    write(alloc, &mut disk, &mut kv, of_one(alloc, None)?)?;
    are_found(alloc, &mut disk, &mut kv)
}

fn are_found(alloc: Global, disk: &mut Untold, kv: &mut Kv) -> Result<bool, Stop>
    requires { IsReadyOver disk.old.host kv.old }
{
    let before = is_found(alloc, disk, kv, 1, b"a", 0, None)?;
    let put = is_found(alloc, disk, kv, 1, b"a", 1, Some((1, Some(&[1]))))?;
    let deleted = is_found(alloc, disk, kv, 1, b"a", 2, Some((2, None)))?;
    let later = is_found(alloc, disk, kv, 1, b"a", 9, Some((2, None)))?;
    Ok(before && put && deleted && later)
}

#[test]
fn a_key_is_put_and_deleted(rt: HostRuntime) -> Result<(), Fail> {
    assert_eq!(rt; is_put_and_deleted(rt.alloc()), Ok(true));
    Ok(())
}
