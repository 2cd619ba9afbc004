//! Places among entries in the order of their keys, by binary search.

ghost use Rattle.std.specs.Prelude.{◌≡◌, ◌≤◌, ◌<◌, length, get_or, true};
ghost use Rattle.std.specs.List.{prefix_len, position};
ghost use Rattle.mr_dict_entry.specs.Entries.{kinded_key, entry_key};
ghost use Rattle.mr_dict.specs.Dictionary.{is_before as comes_before, is_at as stands_at, are_ordered};
ghost use Rattle.mr_dict.specs.Given.{no_entry};

use crate::keys::{compare_key, kind_of, rest_of};
use mr_dict_entry::DictEntry;

fn is_before(entries: &[DictEntry], at: usize, kind: u32, rest: &[u8]) -> bool
    requires { at < length entries.now }
    ensures { result ≡ comes_before (kinded_key kind rest.now) (get_or entries.now at no_entry) }
{
    compare_key(&entries[at], kind, rest).is_lt()
}

fn is_at(entries: &[DictEntry], at: usize, kind: u32, rest: &[u8]) -> bool
    requires { at < length entries.now }
    ensures { result ≡ stands_at (kinded_key kind rest.now) (get_or entries.now at no_entry) }
{
    compare_key(&entries[at], kind, rest).is_eq()
}

/// How many entries, if they are in order, have a key that comes before this one.
pub fn count_before(entries: &[DictEntry], kind: u32, rest: &[u8]) -> usize
    ensures within { result ≤ length entries.now }
    ensures found { are_ordered entries.now ≡ true → result ≡ prefix_len (comes_before (kinded_key kind rest.now)) entries.now }
{
    let mut low = 0;
    let mut high = entries.len();
    'halving: while low < high {
        let middle = low + (high - low) / 2;
        if is_before(entries, middle, kind, rest) {
            low = middle + 1;
        } else {
            high = middle;
        }
    }
    low
}

/// The place of the entry, if they are in order, that has this key.
pub fn place_of(entries: &[DictEntry], kind: u32, rest: &[u8]) -> Option<usize>
    ensures { are_ordered entries.now ≡ true → result ≡ position (stands_at (kinded_key kind rest.now)) entries.now }
{
    let at = count_before(entries, kind, rest);
    if at < entries.len() {
        if is_at(entries, at, kind, rest) {
            return Some(at);
        }
    }
    None
}

/// How many entries, if they are in order, have a key that comes before that of this entry.
pub fn count_before_entry(entries: &[DictEntry], entry: &DictEntry) -> usize
    ensures within { result ≤ length entries.now }
    ensures found { are_ordered entries.now ≡ true → result ≡ prefix_len (comes_before (entry_key entry.now)) entries.now }
{
    count_before(entries, kind_of(entry), rest_of(entry).as_slice())
}

/// Whether the entry at a place has the key of this entry.
pub fn has_key_of(entries: &[DictEntry], at: usize, entry: &DictEntry) -> bool
    requires { at < length entries.now }
    ensures { result ≡ stands_at (entry_key entry.now) (get_or entries.now at no_entry) }
{
    is_at(entries, at, kind_of(entry), rest_of(entry).as_slice())
}
