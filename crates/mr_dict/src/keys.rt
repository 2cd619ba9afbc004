//! The keys of entries, compared where they lie.

ghost use Rattle.std.specs.Prelude.{◌≡◌};
ghost use Rattle.std.specs.Cmp.Lexicographic.{slice_cmp};
ghost use Rattle.std.specs.Ordering.{nat_cmp};
ghost use Rattle.byteorder.specs.Endian.{big_bytes};
ghost use Rattle.mr_dict_entry.specs.Entries.{kind_of as entry_kind, rest_of as entry_rest, kinded_key, entry_key};
ghost use Rattle.mr_dict.specs.Given.{rest_bytes};

use byteorder::{BigEndian, ByteOrder};
use mr_dict_entry::DictEntry;
use std::cmp::Ordering;

/// What stands behind the kind in a key.
#[derive(Clone, Copy, Drop)]
pub enum Rest<'a> {
    Name(&'a [u8]),
    Number([u8; 4]),
    Nothing,
}

impl<'a> Rest<'a> {
    pub fn as_slice(&self) -> &[u8]
        ensures { result.now ≡ rest_bytes self.now }
    {
        match self {
            Rest::Name(name) => name,
            Rest::Number(bytes) => bytes,
            Rest::Nothing => &[],
        }
    }
}

/// The four bytes of a number.
pub fn bytes_of(number: u32) -> [u8; 4]
    ensures { result ≡ big_bytes 4 number }
{
    let mut bytes = [0; 4];
    BigEndian::write_u32(&mut bytes, number);
    bytes
}

pub fn kind_of(entry: &DictEntry) -> u32
    ensures { result ≡ entry_kind entry.now }
{
    match entry {
        DictEntry::Table { .. } => 1,
        DictEntry::Index { .. } => 2,
        DictEntry::Family { .. } => 3,
        DictEntry::Dropped { .. } => 4,
        DictEntry::Building { .. } => 5,
        DictEntry::Greatest(_) => 6,
        DictEntry::NextHidden { .. } => 7,
        DictEntry::LastCommit { .. } => 8,
    }
}

pub fn rest_of(entry: &DictEntry) -> Rest<'_>
    ensures { rest_bytes result ≡ entry_rest entry.now }
{
    match entry {
        DictEntry::Table { name, .. } => Rest::Name(name.as_slice()),
        DictEntry::Index { number, .. } => Rest::Number(bytes_of(*number)),
        DictEntry::Family { family, .. } => Rest::Number(bytes_of(*family)),
        DictEntry::Dropped { number, .. } => Rest::Number(bytes_of(*number)),
        DictEntry::Building { number, .. } => Rest::Number(bytes_of(*number)),
        DictEntry::NextHidden { number, .. } => Rest::Number(bytes_of(*number)),
        DictEntry::Greatest(_) | DictEntry::LastCommit { .. } => Rest::Nothing,
    }
}

/// How two keys stand to one another, given as kinds and what stands behind them.
fn compare_parts(kind: u32, rest: &[u8], other_kind: u32, other_rest: &[u8]) -> Ordering
    ensures { result ≡ slice_cmp nat_cmp (kinded_key kind rest.now) (kinded_key other_kind other_rest.now) }
{
    let kind = bytes_of(kind);
    let other_kind = bytes_of(other_kind);
    kind.as_slice()
        .cmp(other_kind.as_slice())
        .then(rest.cmp(other_rest))
}

/// How an entry's key stands to the key of this kind and rest.
pub fn compare_key(entry: &DictEntry, kind: u32, rest: &[u8]) -> Ordering
    ensures { result ≡ slice_cmp nat_cmp (entry_key entry.now) (kinded_key kind rest.now) }
{
    compare_parts(kind_of(entry), rest_of(entry).as_slice(), kind, rest)
}
