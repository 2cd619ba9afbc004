//! What is read of a small run one of whose bytes is another.
use crate::runs::{FILE, SMALL, go_on, stands_on};
use mr_base::{Direction, Memory, Stop};
use mr_iter::{Cursor, Listed, RunInfo};
use mr_memhost::MemHost;
use mr_run_cursor::PinnedCursor;
use mr_run_open::Run;
use std::alloc::Global;
use std::test::Fail;

/// There is no damage.
const SOUND: u8 = 255;

/// An answer that isn't among those that there are to be.
const WRONG: u8 = 254;

/// The place of the damage for each byte of `SMALL` whose lowest bit is changed, by the definition of the run that bytes are. It has
/// damage at 34 where the second key or the last key of the index is another; that is judged of a whole list alone, and a walk
/// doesn't tell it.
const LOWEST_BIT: &[u8; 111] =
    b"\x04\x04\x04\x04\x04\x04\x04\x04\x08\x08\x08\x08\x10\x10\x10\x19\x10\xFF\xFF\xFF\xFF\xFF\xFF\xFF\xFF\x19\x1A\x1A\x1A\x1A\x22\x22\x22\x2F\xFF\xFF\xFF\xFF\xFF\xFF\xFF\xFF\xFF\x2B\x30\x30\x30\x30\xFF\x31\x31\x31\x31\x31\x31\x31\x31\x39\x39\x39\x39\x41\x41\x41\x45\x10\x46\x46\x46\x46\xFF\x47\x47\x47\x47\x47\x47\x47\x4F\x4F\x4F\x4F\x4F\x4F\x4F\x4F\x4F\x42\x42\x42\x42\x42\x42\x42\x57\x5F\x5F\x5F\x5F\x5F\x5F\x5F\x5F\x67\x67\x67\x67\x67\x67\x67\x67";

/// The same for the bit below the highest one.
const HIGH_BIT: &[u8; 111] =
    b"\x04\x04\x04\x04\x04\x04\x04\x04\x08\x08\x08\x08\x10\x10\x10\x10\x10\xFF\xFF\xFF\xFF\xFF\xFF\xFF\xFF\x19\x1A\x1A\x1A\x1A\x22\x22\x22\x22\xFF\xFF\xFF\xFF\xFF\xFF\xFF\xFF\xFF\x2B\x30\x30\x30\x30\xFF\x31\x31\x31\x31\x31\x31\x31\x31\x39\x39\x39\x39\x41\x41\x41\x41\x10\x46\x46\x46\x46\xFF\x47\x47\x47\x47\x47\x47\x47\x47\x4F\x4F\x4F\x4F\x4F\x4F\x4F\x4F\x42\x42\x42\x42\x42\x42\x42\x42\x5F\x5F\x5F\x5F\x5F\x5F\x5F\x5F\x67\x67\x67\x67\x67\x67\x67\x67";

/// The same for the highest bit.
const HIGHEST_BIT: &[u8; 111] =
    b"\x04\x04\x04\x04\x04\x04\x04\x04\x08\x08\x08\x08\x10\x10\x10\x10\x10\xFF\xFF\xFF\xFF\xFF\xFF\xFF\xFF\x19\x1A\x1A\x1A\x1A\x22\x22\x22\x22\xFF\xFF\xFF\xFF\xFF\xFF\xFF\xFF\xFF\x2B\x30\x30\x30\x30\xFF\x31\x31\x31\x31\x31\x31\x31\x31\x39\x39\x39\x39\x41\x41\x41\x41\x10\x46\x46\x46\x46\xFF\x47\x47\x47\x47\x47\x47\x47\x47\x4F\x4F\x4F\x4F\x4F\x4F\x4F\x4F\x42\x42\x42\x42\x42\x42\x42\x42\x5F\x5F\x5F\x5F\x5F\x5F\x5F\x5F\x67\x67\x67\x67\x67\x67\x67\x67";

/// Whether a walk over the run that a host has in `FILE` gives the two versions that stand in these bytes.
fn is_read(alloc: Global, host: &mut MemHost, bytes: &[u8; 111]) -> Result<bool, Stop> {
    let info = RunInfo {
        file: FILE,
        length: 111,
        entries: 2,
    };
    let run = Run::open(alloc, host, &info, Direction::Forward)?;
    let mut cursor = PinnedCursor::new(alloc, &run);
    cursor.seek(host, b"")?;
    let is_first = stands_on(&cursor, &bytes[16..17], &bytes[17..25], None);
    go_on(&mut cursor, host)?;
    let is_second = stands_on(
        &cursor,
        &bytes[34..35],
        &bytes[35..43],
        Some(&bytes[48..49]),
    );
    go_on(&mut cursor, host)?;
    Ok(is_first && is_second && cursor.at_end())
}

/// The place of the damage that reading these bytes tells.
fn damage_in(alloc: Global, bytes: &[u8; 111]) -> Result<u8, Memory> {
    let mut host = MemHost::new(alloc);
    host.add_file(FILE, bytes)?;
    Ok(match is_read(alloc, &mut host, bytes) {
        Ok(true) => SOUND,
        Err(Stop::Damaged { file: FILE, at }) if at < 254 => at as u8,
        _ => WRONG,
    })
}

/// The same for `SMALL` with a byte at a place changed by these bits.
fn damage_with(alloc: Global, at: usize, bits: u8) -> Result<u8, Memory> {
    let mut bytes = *SMALL;
    if let Some(byte) = bytes.get_mut(at) {
        *byte ^= bits;
    }
    damage_in(alloc, &bytes)
}

/// Whether each byte that is changed by these bits is damage where it is to be.
fn is_told(alloc: Global, bits: u8, places: &[u8]) -> bool {
    let mut is_right = true;
    for (at, place) in places.iter().enumerate() {
        is_right = is_right && damage_with(alloc, at, bits) == Ok(*place);
    }
    is_right
}

#[test]
fn each_byte_is_changed_to_three_others(rt: HostRuntime) -> Result<(), Fail> {
    let alloc = rt.alloc();
    assert!(rt; is_told(alloc, 0x01, LOWEST_BIT));
    assert!(rt; is_told(alloc, 0x40, HIGH_BIT));
    assert!(rt; is_told(alloc, 0x80, HIGHEST_BIT));
    Ok(())
}
