//! What a store tells of itself behind each step of a short script: w writes a batch, p prepares one, c decides it, a abandons it, and s
//! settles.
ghost use Rattle.std.specs.Prelude.{OnOk};
ghost use Rattle.mr_kv_trials.specs.Silent.{IsReadyOver};

use crate::calls::{judge, prepare, settle, write};
use crate::fresh::fresh;
use crate::made::add;
use crate::untold::Untold;
use mr_base::{FullKind, Memory, Stop};
use mr_kv::Kv;
use mr_wal::Batch;
use sqlite_items::Items;
use std::alloc::Global;
use std::test::Fail;

/// The commit of each prepared batch.
const COMMIT: u8 = 9;

/// A step, and then the commit that is pending, 0 for none, the last sequence number, and the bytes of the log. A plain record has 34
/// bytes, a prepare 42, and a verdict alone 7.
const ROWS: &[u8] = b"\
w\x00\x01\x23\
p\x09\x02\x4D\
c\x00\x02\x4D\
s\x00\x02\x54\
p\x09\x03\x7E\
a\x00\x03\x7E\
w\x00\x04\xA0\
s\x00\x04\xA0\
p\x09\x05\xCA";

/// A put of one byte in family 1.
fn of_one(alloc: Global) -> Result<Batch, Memory> {
    let mut batch = Items::new(alloc);
    add(alloc, &mut batch, 1, b"k", Some(b"v"))?;
    Ok(batch)
}

fn step(alloc: Global, disk: &mut Untold, kv: &mut Kv, letter: u8) -> Result<(), Stop>
    requires { IsReadyOver disk.old.host kv.old }
    ensures { OnOk result (IsReadyOver disk.new.host kv.new) }
{
    match letter {
        b'w' => write(alloc, disk, kv, of_one(alloc)?),
        b'p' => prepare(alloc, disk, kv, COMMIT as u64, of_one(alloc)?),
        b's' => settle(alloc, disk, kv),
        _ => {
            judge(disk, kv, letter == b'c');
            Ok(())
        }
    }
}

/// Whether a store tells these numbers, and has room.
fn tells(alloc: Global, kv: &Kv, numbers: &[u8]) -> Result<bool, Memory> {
    let has_room = kv.room(&of_one(alloc)?).is_ok();
    Ok(match numbers {
        [pending, last, bytes] => {
            has_room
                && kv.pending().unwrap_or(0) == *pending as u64
                && kv.snapshot() == *last as u64
                && kv.live_log_bytes() == *bytes as u64
        }
        _ => false,
    })
}

fn always_tells(alloc: Global, rows: &[u8]) -> Result<bool, Stop> {
    let mut disk = Untold::new(alloc);
    let mut kv = fresh(alloc, &mut disk, 0)?;
    let mut is_so = tells(alloc, &kv, &[0, 0, 1])?;
    'telling: for row in rows.chunks_exact(4) {
        step(alloc, &mut disk, &mut kv, row[0])?;
        is_so = tells(alloc, &kv, &row[1..])? && is_so;
    }
    Ok(is_so)
}

#[test]
fn each_step_is_told(rt: HostRuntime) -> Result<(), Fail> {
    assert_eq!(rt; always_tells(rt.alloc(), ROWS), Ok(true));
    Ok(())
}

/// Sequence numbers are below this one.
const SEQUENCES: u64 = 1 << 63;

const FULL: Stop = Stop::Full {
    what: FullKind::Sequence,
    at: SEQUENCES,
    limit: SEQUENCES,
};

/// What `room` and then `write` answer, and whether the last number and the bytes of the log are these then.
fn answers(
    alloc: Global,
    disk: &mut Untold,
    kv: &mut Kv,
    last: u64,
    bytes: u64,
) -> Result<(Option<Stop>, Option<Stop>, bool), Memory>
    requires { IsReadyOver disk.old.host kv.old }
{
    let room = kv.room(&of_one(alloc)?).err();
    let written = write(alloc, disk, kv, of_one(alloc)?).err();
    let is_so = kv.snapshot() == last && kv.live_log_bytes() == bytes;
    Ok((room, written, is_so))
}

/// The same on a new store behind a number.
fn answers_behind(
    alloc: Global,
    base: u64,
    last: u64,
    bytes: u64,
) -> Result<(Option<Stop>, Option<Stop>, bool), Stop> {
    let mut disk = Untold::new(alloc);
    let mut kv = fresh(alloc, &mut disk, base)?;
    Ok(answers(alloc, &mut disk, &mut kv, last, bytes)?)
}

#[test]
fn room_ends_with_the_numbers(rt: HostRuntime) -> Result<(), Fail> {
    let alloc = rt.alloc();
    let last = answers_behind(alloc, SEQUENCES - 2, SEQUENCES - 1, 35);
    assert_eq!(rt; last, Ok((None, None, true)));
    let behind = answers_behind(alloc, SEQUENCES - 1, SEQUENCES - 1, 1);
    assert_eq!(rt; behind, Ok((Some(FULL), Some(FULL), true)));
    Ok(())
}
