//! Worked records, and bytes that are none.

use mr_base::{Blob, DefAnswer, Memory};
use mr_wal::{Batch, Operation, WalBody, WalRecord, read_record, write_record};
use sqlite_items::Items;
use std::alloc::Global;
use std::test::Fail;

const PLAIN: &[u8; 32] =
    b"\0\x02\0\0\0\0\0\0\0\x05\0\0\0\x01\0\0\0\x01\x01\0\0\0\x01k\0\0\0\x01v\0\0\0";

fn operation(
    alloc: Global,
    family: u32,
    key: &[u8],
    put: Option<&[u8]>,
) -> Result<Operation, Memory> {
    let key = Blob::from_slice(alloc, key)?;
    let put = match put {
        Some(value) => Some(Blob::from_slice(alloc, value)?),
        None => None,
    };
    Ok(Operation { family, key, put })
}

/// A put of `v` for `k`, and where asked a deletion of `del` behind it.
fn batch_of(alloc: Global, deletes: bool) -> Result<Batch, Memory> {
    let put = operation(alloc, 1, b"k", Some(b"v"))?;
    let mut batch = Items::new(alloc);
    batch.push(put)?;
    if deletes {
        let deletion = operation(alloc, 7, b"del", None)?;
        batch.push(deletion)?;
    }
    Ok(batch)
}

/// The bytes of a record of each kind.
fn written(alloc: Global, kind: u8, verdict: u8, deletes: bool) -> Result<Blob, Memory> {
    let batch = batch_of(alloc, deletes)?;
    let body = match kind {
        1 => WalBody::Prepare {
            k: 9,
            sequence: 5,
            batch,
        },
        2 => WalBody::Plain { sequence: 5, batch },
        _ => WalBody::Decided,
    };
    write_record(alloc, &WalRecord { verdict, body })
}

/// The kind of the record that the bytes are, or the offence.
fn kind_of(alloc: Global, bytes: &[u8]) -> Result<u8, DefAnswer> {
    match read_record(alloc, bytes)?.body {
        WalBody::Prepare { .. } => Ok(1),
        WalBody::Plain { .. } => Ok(2),
        WalBody::Decided => Ok(3),
    }
}

#[test]
fn records_of_each_kind(rt: HostRuntime) -> Result<(), Fail> {
    let alloc = rt.alloc();
    for kind in 1..4u8 {
        let bytes = written(alloc, kind, 0, false);
        assert!(rt; bytes.is_ok());
        let Ok(bytes) = bytes else { return Ok(()) };
        assert_eq!(rt; kind_of(alloc, bytes.as_slice()), Ok(kind));
    }
    let bytes = written(alloc, 2, 0, false);
    assert!(rt; bytes.is_ok());
    let Ok(bytes) = bytes else { return Ok(()) };
    assert_eq!(rt; bytes.as_slice(), &PLAIN[..29]);
    Ok(())
}

#[test]
fn bytes_that_are_no_record(rt: HostRuntime) -> Result<(), Fail> {
    let alloc = rt.alloc();
    for (bytes, at) in [
        (b"".as_slice(), 0u64),
        (b"\x03\x03", 0),
        (b"\0", 1),
        (b"\0\x04", 1),
        (b"\0\x03x", 2),
        (b"\0\x02\0\0\0\0\0\0\0", 2),
        (b"\0\x02\x80\0\0\0\0\0\0\0\0\0\0\0", 2),
        (b"\0\x02\0\0\0\0\0\0\0\x05\0\0\0\x01\0\0\0\x01\x03", 18),
        (
            b"\0\x02\0\0\0\0\0\0\0\x05\0\0\0\x01\0\0\0\x01\x02\0\0\0\x02k",
            23,
        ),
        (PLAIN, 29),
    ] {
        assert_eq!(rt; kind_of(alloc, bytes), Err(DefAnswer::Malformed(at)));
    }
    Ok(())
}

// ---- a plain reader, which keeps a place: each function gives the place behind, or the first byte of the field that offends

fn number_at(bytes: &[u8], at: usize, size: usize) -> Option<u64> {
    match bytes.get(at..at.saturating_add(size)) {
        Some(field) => {
            let mut number = 0u64;
            for byte in field {
                number = number.wrapping_mul(256).wrapping_add(*byte as u64);
            }
            Some(number)
        }
        None => None,
    }
}

fn behind_bytes(bytes: &[u8], at: usize, size: usize) -> Result<usize, usize> {
    if bytes.len().saturating_sub(at) < size {
        Err(at)
    } else {
        Ok(at.saturating_add(size))
    }
}

fn behind_sized(bytes: &[u8], at: usize) -> Result<usize, usize> {
    match number_at(bytes, at, 4) {
        Some(size) => behind_bytes(bytes, at.saturating_add(4), size as usize),
        None => Err(at),
    }
}

fn behind_operation(bytes: &[u8], at: usize) -> Result<usize, usize> {
    let kind = behind_bytes(bytes, at, 4)?;
    let key = kind.saturating_add(1);
    match number_at(bytes, kind, 1) {
        Some(1) => behind_sized(bytes, behind_sized(bytes, key)?),
        Some(2) => behind_sized(bytes, key),
        _ => Err(kind),
    }
}

fn behind_batch(bytes: &[u8], at: usize) -> Result<usize, usize> {
    let Some(count) = number_at(bytes, at, 4) else {
        return Err(at);
    };
    let mut place = at.saturating_add(4);
    for _ in 0..count {
        place = behind_operation(bytes, place)?;
    }
    Ok(place)
}

fn behind_plain(bytes: &[u8], at: usize) -> Result<usize, usize> {
    match number_at(bytes, at, 8) {
        Some(0..=0x7fff_ffff_ffff_ffff) => behind_batch(bytes, at.saturating_add(8)),
        _ => Err(at),
    }
}

fn behind_record(bytes: &[u8]) -> Result<usize, usize> {
    match (number_at(bytes, 0, 1), number_at(bytes, 1, 1)) {
        (Some(0..=2), Some(1)) => behind_plain(bytes, behind_bytes(bytes, 2, 8)?),
        (Some(0..=2), Some(2)) => behind_plain(bytes, 2),
        (Some(0..=2), Some(3)) => Ok(2),
        (Some(0..=2), _) => Err(1),
        _ => Err(0),
    }
}

/// Where the bytes offend, if they are no record.
fn offence_of(bytes: &[u8]) -> Option<u64> {
    match behind_record(bytes) {
        Ok(end) if end == bytes.len() => None,
        Ok(at) | Err(at) => Some(at as u64),
    }
}

/// Whether the bytes are read as by the plain reader, and a record is written as just these bytes.
fn is_read_well(alloc: Global, bytes: &[u8]) -> bool {
    match read_record(alloc, bytes) {
        Ok(record) => match write_record(alloc, &record) {
            Ok(again) => offence_of(bytes).is_none() && again.as_slice() == bytes,
            Err(_) => false,
        },
        Err(DefAnswer::Malformed(at)) => offence_of(bytes) == Some(at),
        Err(DefAnswer::Memory) => false,
    }
}

/// The same with the byte at a place changed.
fn is_change_read_well(alloc: Global, bytes: &[u8], at: usize, mask: u8) -> bool {
    let Ok(copy) = Blob::from_slice(alloc, bytes) else {
        return false;
    };
    let mut changed = copy.into_vec();
    if let Some(byte) = changed.get_mut(at) {
        *byte ^= mask;
    }
    is_read_well(alloc, &changed)
}

/// The first place where one of three other bytes is not read well.
fn misread(alloc: Global, bytes: &[u8]) -> Option<usize> {
    for at in 0..bytes.len() {
        for mask in [1u8, 3, 0x80] {
            if !is_change_read_well(alloc, bytes, at, mask) {
                return Some(at);
            }
        }
    }
    None
}

/// How long a record is, and where one of its bytes is misread when it is changed.
fn length_and_misread(
    alloc: Global,
    kind: u8,
    verdict: u8,
    deletes: bool,
) -> Option<(usize, Option<usize>)> {
    match written(alloc, kind, verdict, deletes) {
        Ok(bytes) => Some((bytes.len(), misread(alloc, bytes.as_slice()))),
        Err(_) => None,
    }
}

#[test]
fn each_byte_changed(rt: HostRuntime) -> Result<(), Fail> {
    let alloc = rt.alloc();
    for (kind, deletes, length) in [
        (1u8, false, 37usize),
        (1, true, 49),
        (2, false, 29),
        (2, true, 41),
        (3, false, 2),
    ] {
        for verdict in 0..3u8 {
            assert_eq!(rt;
                length_and_misread(alloc, kind, verdict, deletes),
                Some((length, None))
            );
        }
    }
    Ok(())
}
