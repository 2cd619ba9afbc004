//! A block that is read where it stands.
//!
//!     block   count u32, a place u32 for each entry, the entries without gaps
//!     entry   key length u32, key, sequence u64, kind u8: 1 for a put, 2 for a deletion; value length u32, value
//!
//! Numbers are big-endian, places are counted from the block's start, and a deletion's value is empty. Key `a` with value `b` and
//! sequence number 7:
//!
//!     00 00 00 01   00 00 00 08   00 00 00 01 61   00 00 00 00 00 00 00 07   01   00 00 00 01 62
ghost use Rattle.std.specs.Prelude.{◌≡◌, ◌<◌, ◌≤◌, ◌+◌, ◌*◌, length, OnOk, IfOk, IfErr, Err, drop, get_or};
ghost use Rattle.byteorder.specs.Endian.{big_number};
ghost use Rattle.mr_block.specs.Block.{entries_in, block_in, short_at, outcome, IsBlock, list_of, no_version};
ghost use Rattle.mr_block.specs.Given.{version_of};

use crate::entry::{Entry, entry_of, key_of};
use crate::fields::u32_in;
use byteorder::{BigEndian, ByteOrder};
use mr_base::Malformed;

/// The first offence where the places of so many entries aren't whole.
fn short_table(count: u32, places: &[u8]) -> u64
    requires { length places.now < 4 * count }
    ensures { result ≡ short_at count places.now }
{
    let wanted = 4 + 4 * count as u64;
    if places.len() >= 4 && BigEndian::read_u32(places) as u64 != wanted {
        return 4;
    }
    4 + 4 * (places.len() as u64 / 4)
}

/// The place that stands at a place.
pub fn place_at(block: &[u8], at: usize) -> usize
    requires { at + 4 ≤ length block.now }
    ensures { result ≡ big_number 4 (drop at block.now) }
{
    BigEndian::read_u32(&block[at..]) as usize
}

/// Whether the rest of a block are so many entries.
fn check_entries(block: &[u8], count: u32) -> Result<(), Malformed>
    requires { 4 + 4 * count ≤ length block.now }
    ensures ok { OnOk result (outcome (entries_in block.now count 4 (drop (4 + 4 * count) block.now)) ≡ Rattle.std.specs.Prelude.Ok tt) }
    ensures err { IfErr result (λ m. outcome (entries_in block.now count 4 (drop (4 + 4 * count) block.now)) ≡ Err m.0) }
{
    let mut rest = &block[4 + 4 * count as usize..];
    'checking: for i in 0..count as usize {
        let at = 4 + 4 * i;
        if place_at(block, at) != block.len() - rest.len() {
            return Err(Malformed(at as u64));
        }
        match entry_of(rest) {
            Ok((_, behind)) => rest = behind,
            Err(left) => return Err(Malformed((block.len() - left) as u64)),
        }
    }
    if rest.is_empty() {
        Ok(())
    } else {
        Err(Malformed((block.len() - rest.len()) as u64))
    }
}

/// Whether the bytes are a block, or the first offending place.
pub fn check_block(block: &[u8]) -> Result<u32, Malformed>
    ensures ok { OnOk result (outcome (block_in block.now) ≡ Rattle.std.specs.Prelude.Ok tt) }
    ensures err { IfErr result (λ m. outcome (block_in block.now) ≡ Err m.0) }
    ensures count { IfOk result (λ n. n ≡ big_number 4 block.now) }
{
    let Ok((count, places)) = u32_in(block) else {
        return Err(Malformed(0));
    };
    if places.len() < 4 * count as usize {
        return Err(Malformed(short_table(count, places)));
    }
    check_entries(block, count)?;
    Ok(count)
}

/// The bytes from a place on.
fn rest_at(block: &[u8], at: usize) -> &[u8]
    requires { at ≤ length block.now }
    ensures { result.now ≡ drop at block.now }
{
    &block[at..]
}

/// Entry i of a block.
pub fn entry_at(block: &[u8], i: usize) -> Entry<'_>
    requires block { IsBlock block.now }
    requires within { i < length (list_of (block_in block.now)) }
    ensures { version_of result ≡ get_or (list_of (block_in block.now)) i no_version }
{
    let place = place_at(block, 4 + 4 * i);
    match entry_of(rest_at(block, place)) {
        Ok((entry, _)) => entry,
        Err(_) => Entry {
            key: &[],
            sequence: 0,
            is_put: false,
            value: &[],
        },
    }
}

/// The key of entry i of a block. Nothing else of the entry is read.
pub fn key_at(block: &[u8], i: usize) -> &[u8]
    requires block { IsBlock block.now }
    requires within { i < length (list_of (block_in block.now)) }
    ensures { result.now ≡ (get_or (list_of (block_in block.now)) i no_version).key }
{
    let place = place_at(block, 4 + 4 * i);
    match key_of(rest_at(block, place)) {
        Ok((key, _)) => key,
        Err(_) => &[],
    }
}
