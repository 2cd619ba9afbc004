//! A binary search over the first keys of a run's blocks.
ghost use Rattle.std.specs.Prelude.{◌≡◌, ◌≤◌, ◌<◌, length, map, get_or, true};
ghost use Rattle.std.specs.List.{prefix_len};
ghost use Rattle.mr_run_open.specs.Given.{indexed_of};
ghost use Rattle.mr_run_open.specs.Runs.{is_before as comes_before, is_upto as comes_upto, are_in_order, no_block};

use crate::index::IndexEntry;
use mr_base::Direction;
use mr_iter::compare_keys;

fn is_before(blocks: &[IndexEntry], i: usize, key: &[u8], direction: Direction) -> bool
    requires { i < length blocks.now }
    ensures { result ≡ comes_before direction key.now (get_or (map indexed_of blocks.now) i no_block) }
{
    compare_keys(direction, blocks[i].key.as_slice(), key).is_lt()
}

fn is_upto(blocks: &[IndexEntry], i: usize, key: &[u8], direction: Direction) -> bool
    requires { i < length blocks.now }
    ensures { result ≡ comes_upto direction key.now (get_or (map indexed_of blocks.now) i no_block) }
{
    !compare_keys(direction, blocks[i].key.as_slice(), key).is_gt()
}

/// How many blocks, if they are in order, have a first key that comes before this key.
pub fn count_before(blocks: &[IndexEntry], key: &[u8], direction: Direction) -> usize
    ensures within { result ≤ length blocks.now }
    ensures found { are_in_order direction (map indexed_of blocks.now) ≡ true → result ≡ prefix_len (comes_before direction key.now) (map indexed_of blocks.now) }
{
    let mut low = 0;
    let mut high = blocks.len();
    'halving: while low < high {
        let middle = low + (high - low) / 2;
        if is_before(blocks, middle, key, direction) {
            low = middle + 1;
        } else {
            high = middle;
        }
    }
    low
}

/// How many blocks, if they are in order, have a first key that doesn't come behind this key.
pub fn count_upto(blocks: &[IndexEntry], key: &[u8], direction: Direction) -> usize
    ensures within { result ≤ length blocks.now }
    ensures found { are_in_order direction (map indexed_of blocks.now) ≡ true → result ≡ prefix_len (comes_upto direction key.now) (map indexed_of blocks.now) }
{
    let mut low = 0;
    let mut high = blocks.len();
    'halving: while low < high {
        let middle = low + (high - low) / 2;
        if is_upto(blocks, middle, key, direction) {
            low = middle + 1;
        } else {
            high = middle;
        }
    }
    low
}
