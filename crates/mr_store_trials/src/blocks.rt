//! Worked blocks, and bytes that are none.
ghost use Rattle.std.specs.Prelude.{◌≡◌, Ok, IfOk};
ghost use Rattle.mr_block.specs.Block.{block_in};

use bytes::Bytes;
use mr_base::{Blob, Direction, Malformed, Memory};
use mr_block::{BlockBuilder, BlockRef, Found};
use std::alloc::Global;
use std::test::Fail;

/// Key `a` with value `b` and sequence number 7.
const ONE: &[u8; 27] = b"\0\0\0\x01\0\0\0\x08\0\0\0\x01a\0\0\0\0\0\0\0\x07\x01\0\0\0\x01b";

/// A block with a version of each letter: a capital is a deletion, and a later one has a smaller sequence number.
fn block_of(alloc: Global, letters: &[u8]) -> Result<Blob, Memory> {
    let mut builder = BlockBuilder::new(alloc);
    let mut sequence = 99u64;
    for letter in letters {
        let key = [letter.to_ascii_lowercase()];
        if letter.is_ascii_uppercase() {
            builder.add(&key, sequence, None)?;
        } else {
            builder.add(&key, sequence, Some(&[*letter, b'!']))?;
        }
        sequence = sequence.saturating_sub(1);
    }
    builder.finish()
}

fn bound_of(alloc: Global, letters: &[u8], key: &[u8], direction: Direction) -> Option<usize> {
    let Ok(bytes) = block_of(alloc, letters) else {
        return None;
    };
    match BlockRef::parse(bytes.as_slice()) {
        Ok(block) => Some(block.lower_bound(key, direction)),
        Err(_) => None,
    }
}

/// The first version of a block, which is pinned.
fn first_of(alloc: Global, letters: &[u8]) -> Option<Found> {
    let Ok(bytes) = block_of(alloc, letters) else {
        return None;
    };
    let Ok(pinned) = Bytes::from_vec(bytes.into_vec()) else {
        return None;
    };
    let count = match BlockRef::parse(&pinned) {
        Ok(block) => block.count(),
        Err(_) => return None,
    };
    if count == 0 {
        return None;
    }
    Some(Found::new(pinned, 0))
}

#[test]
fn a_version_that_was_found(rt: HostRuntime) -> Result<(), Fail> {
    let alloc = rt.alloc();
    let found = first_of(alloc, b"aB");
    assert!(rt; found.is_some());
    let Some(found) = found else { return Ok(()) };
    assert_eq!(rt; found.value(), b"a!".as_slice());
    assert_eq!(rt; found.key(), b"a".as_slice());
    assert_eq!(rt; found.sequence(), 99);
    assert!(rt; found.is_put());
    let found = first_of(alloc, b"B");
    assert!(rt; found.is_some());
    let Some(found) = found else { return Ok(()) };
    assert!(rt; !found.is_put());
    assert_eq!(rt; found.value(), b"".as_slice());
    assert!(rt; first_of(alloc, b"").is_none());
    Ok(())
}

#[test]
fn one_version(rt: HostRuntime) -> Result<(), Fail> {
    let mut builder = BlockBuilder::new(rt.alloc());
    assert!(rt; builder.add(b"a", 7, Some(b"b")).is_ok());
    let bytes = builder.finish();
    assert!(rt; bytes.is_ok());
    let Ok(bytes) = bytes else { return Ok(()) };
    assert_eq!(rt; bytes.as_slice(), ONE.as_slice());
    Ok(())
}

/// Each key and value and the sequence number's last digit, a `-` before a deletion.
fn shown(alloc: Global, block: &BlockRef<'_>) -> Result<Vec<u8>, Memory> {
    let mut out = Vec::new(alloc);
    for i in 0..block.count() {
        let (key, value) = block.entry(i);
        if !block.is_put(i) {
            out.extend_from_slice(b"-")?;
        }
        out.extend_from_slice(key)?;
        out.extend_from_slice(b"=")?;
        out.extend_from_slice(value)?;
        out.extend_from_slice(&[b'0' + (block.sequence(i) % 10) as u8, b' '])?;
    }
    Ok(out)
}

#[test]
fn versions_of_a_block(rt: HostRuntime) -> Result<(), Fail> {
    let bytes = block_of(rt.alloc(), b"aBc");
    assert!(rt; bytes.is_ok());
    let Ok(bytes) = bytes else { return Ok(()) };
    let block = BlockRef::parse(bytes.as_slice());
    assert!(rt; block.is_ok());
    let Ok(block) = block else { return Ok(()) };
    let text = shown(rt.alloc(), &block);
    assert!(rt; text.is_ok());
    let Ok(text) = text else { return Ok(()) };
    assert_eq!(rt; text.as_slice(), b"a=a!9 -b=8 c=c!7 ".as_slice());
    Ok(())
}

#[test]
fn bytes_that_are_no_block(rt: HostRuntime) -> Result<(), Fail> {
    for (bytes, at) in [
        (b"".as_slice(), 0u64),
        (b"\0\0\0", 0),
        (b"\0\0\0\0x", 4),
        (b"\0\0\0\x02\0\0\0\x0c", 8),
        (b"\0\0\0\x02\0\0\0\x08", 4),
        (b"\0\0\0\x01\0\0\0\x09", 4),
        (b"\0\0\0\x01\0\0\0\x08\0\0\0", 8),
        (b"\0\0\0\x01\0\0\0\x08\0\0\0\x02a", 12),
        (
            b"\0\0\0\x01\0\0\0\x08\0\0\0\x01a\0\0\0\0\0\0\0\x07\x03\0\0\0\0",
            21,
        ),
        (
            b"\0\0\0\x01\0\0\0\x08\0\0\0\x01a\0\0\0\0\0\0\0\x07\x02\0\0\0\x01b",
            22,
        ),
        (
            b"\0\0\0\x01\0\0\0\x08\0\0\0\x01a\0\0\0\0\0\0\0\x07\x01\0\0\0\x01bc",
            27,
        ),
    ] {
        assert_eq!(rt; BlockRef::parse(bytes).err(), Some(Malformed(at)));
    }
    assert!(rt; BlockRef::parse(ONE).is_ok());
    Ok(())
}

#[test]
fn where_a_key_begins(rt: HostRuntime) -> Result<(), Fail> {
    let alloc = rt.alloc();
    for (letters, key, direction, expected) in [
        (b"abbd".as_slice(), b"".as_slice(), Direction::Forward, 0),
        (b"abbd", b"b", Direction::Forward, 1),
        (b"abbd", b"c", Direction::Forward, 3),
        (b"abbd", b"e", Direction::Forward, 4),
        (b"dbba", b"b", Direction::Reverse, 1),
        (b"dbba", b"c", Direction::Reverse, 1),
        (b"", b"c", Direction::Forward, 0),
    ] {
        assert_eq!(rt; bound_of(alloc, letters, key, direction), Some(expected));
    }
    Ok(())
}
