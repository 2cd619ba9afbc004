//! A block where it stands, as a list of versions.
ghost use Rattle.std.specs.Prelude.{◌≡◌, ◌<◌, ◌≤◌, ◌-◌, length, IfOk, IfErr, IfSome, Err, Ok, None, drop, get_or, is_some, unwrap_or, [], true, false};
ghost use Rattle.std.specs.Option.{option_map};
ghost use Rattle.std.specs.Ordering.{is_lt, is_gt};
ghost use Rattle.mr_iter.specs.Versions.{as_version, key_cmp, version_cmp, from_key, IsInOrder};
ghost use Rattle.mr_iter.specs.Newest.{newest, IsPlaceOf};
ghost use Rattle.mr_block.specs.Block.{block_in, block_bytes, no_version, IsBlock};
ghost use Rattle.mr_block.specs.Given.{version_of};

use crate::block::{check_block, entry_at, key_at, place_at};
use crate::entry::Entry;
use mr_base::{Direction, Malformed};
use mr_iter::compare_keys;
use std::marker::Model;

/// A block that is read where it stands, as the list of its versions. No call takes memory.
#[derive(Drop)]
pub struct BlockRef<'a> {
    block: &'a [u8],
    count: usize,
}

impl<'a> Model for BlockRef<'a> {
    ghost use Rattle.std.specs.Prelude.{◌≡◌, List, length, true};
    ghost use Rattle.std.specs.List.{list_all};
    ghost use Rattle.mr_block.specs.Fields.{is_byte};
    ghost use Rattle.mr_iter.specs.Versions.{Version};
    ghost use Rattle.mr_block.specs.Block.{block_in, list_of, IsBlock};

    ghost Value = { List Version };

    ghost view = { λ b. list_of (block_in b.block.now) };

    ghost invariant = { λ b. (list_all is_byte b.block.now ≡ true) × IsBlock b.block.now × (b.count ≡ length (list_of (block_in b.block.now))) };
}

impl<'a> BlockRef<'a> {
    /// The block that the bytes are, or the first offending place.
    pub fn parse(bytes: &'a [u8]) -> Result<BlockRef<'a>, Malformed>
        ensures ok { IfOk result (λ b. block_in bytes.now ≡ Ok b) }
        ensures form { IfOk result (λ b. bytes.now ≡ block_bytes b) }
        ensures err { IfErr result (λ m. block_in bytes.now ≡ Err m.0) }
    {
        let count = check_block(bytes)? as usize;
        Ok(BlockRef {
            block: bytes,
            count,
        })
    }

    /// The block that the bytes are known to be. It is not judged again.
    pub fn of(bytes: &'a [u8]) -> BlockRef<'a>
        requires { IsBlock bytes.now }
        ensures ok { block_in bytes.now ≡ Ok result }
        ensures form { bytes.now ≡ block_bytes result }
    {
        let count = place_at(bytes, 0);
        BlockRef {
            block: bytes,
            count,
        }
    }

    /// How many versions it has.
    pub fn count(&self) -> usize
        ensures { result ≡ length self.now }
    {
        self.count
    }

    fn at(&self, i: usize) -> Entry<'a>
        requires { i < length self.now }
        ensures { version_of result ≡ get_or self.now i no_version }
    {
        entry_at(self.block, i)
    }

    /// The key.
    pub fn key(&self, i: usize) -> &'a [u8]
        requires { i < length self.now }
        ensures { result.now ≡ (get_or self.now i no_version).key }
    {
        key_at(self.block, i)
    }

    /// The key and the value, which is empty for a deletion.
    pub fn entry(&self, i: usize) -> (&'a [u8], &'a [u8])
        requires { i < length self.now }
        ensures key { result.0.now ≡ (get_or self.now i no_version).key }
        ensures value { result.1.now ≡ unwrap_or (get_or self.now i no_version).put [] }
    {
        let entry = self.at(i);
        if entry.is_put {
            (entry.key, entry.value)
        } else {
            (entry.key, &[])
        }
    }

    /// The sequence number.
    pub fn sequence(&self, i: usize) -> u64
        requires { i < length self.now }
        ensures { result ≡ (get_or self.now i no_version).sequence }
    {
        self.at(i).sequence
    }

    /// False for a deletion.
    pub fn is_put(&self, i: usize) -> bool
        requires { i < length self.now }
        ensures { result ≡ is_some (get_or self.now i no_version).put }
    {
        self.at(i).is_put
    }

    fn is_before(&self, i: usize, key: &[u8], direction: Direction) -> bool
        requires { i < length self.now }
        ensures { result ≡ is_lt (key_cmp direction (get_or self.now i no_version).key key.now) }
    {
        compare_keys(direction, self.key(i), key).is_lt()
    }

    /// Where the versions begin whose key isn't before this key, if they are in the order of the direction.
    pub fn lower_bound(&self, key: &[u8], direction: Direction) -> usize
        ensures within { result ≤ length self.now }
        ensures found { IsInOrder (version_cmp direction) self.now → drop result self.now ≡ from_key direction key.now self.now }
    {
        let mut low = 0;
        let mut high = self.count;
        'halving: while low < high {
            let middle = low + (high - low) / 2;
            if self.is_before(middle, key, direction) {
                low = middle + 1;
            } else {
                high = middle;
            }
        }
        low
    }

    /// Whether version i comes before that of a key and a number. The number is looked at only where the keys are the same.
    fn comes_before(&self, i: usize, key: &[u8], number: u64, direction: Direction) -> bool
        requires { i < length self.now }
        ensures { result ≡ is_gt (version_cmp direction (as_version key.now number None) (get_or self.now i no_version)) }
    {
        let order = compare_keys(direction, key, self.key(i));
        if order.is_eq() {
            return self.sequence(i) > number;
        }
        order.is_gt()
    }

    /// Where the version of a key and a number belongs, if the versions are in the order of the direction.
    fn place_of(&self, key: &[u8], number: u64, direction: Direction) -> usize
        ensures within { result ≤ length self.now }
        ensures place { IsPlaceOf direction number key.now self.now result }
    {
        let mut low = 0;
        let mut high = self.count;
        'halving: while low < high {
            let middle = low + (high - low) / 2;
            if self.comes_before(middle, key, number, direction) {
                low = middle + 1;
            } else {
                high = middle;
            }
        }
        low
    }

    /// Where the newest version of a key stands that isn't past a number, deletions included, if the versions are in the order
    /// of the direction; None where there is none.
    pub fn newest(&self, key: &[u8], number: u64, direction: Direction) -> Option<usize>
        ensures within { IfSome result (λ i. i < length self.now) }
        ensures found { IsInOrder (version_cmp direction) self.now → option_map (λ i. get_or self.now i no_version) result ≡ newest number key.now self.now }
    {
        let i = self.place_of(key, number, direction);
        if i >= self.count {
            return None;
        }
        if key.cmp(self.key(i)).is_eq() {
            return Some(i);
        }
        None
    }
}
