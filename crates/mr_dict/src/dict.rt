//! The dictionary as a list of entries.

ghost use Rattle.std.specs.Prelude.{◌≡◌, ◌<◌, ◌≤◌, [], length, get_or, slice_get, set, insert, remove, Some, true, IsTrue, OnOk, OnErr};
ghost use Rattle.std.specs.List.{position};
ghost use Rattle.mr_dict_entry.specs.Entries.{kinded_key, entry_key};
ghost use Rattle.mr_dict.specs.Given.{no_entry};
ghost use Rattle.mr_dict.specs.Dictionary.{is_at, are_ordered, put_in};

use crate::places::{count_before_entry, has_key_of, place_of};
use mr_base::Memory;
use mr_dict_entry::DictEntry;
use std::alloc::Global;
use std::marker::Model;

fn replace(entries: &mut Vec<DictEntry>, at: usize, entry: DictEntry)
    requires { at < length entries.old.items }
    ensures { entries.new.items ≡ set entries.old.items at entry }
{
    entries[at] = entry;
}

fn take_out(entries: &mut Vec<DictEntry>, at: usize)
    requires { at < length entries.old.items }
    ensures { entries.new.items ≡ remove entries.old.items at }
{
    let _entry = entries.remove(at);
}

/// Takes memory; where that is wanting, nothing was changed.
fn add(entries: &mut Vec<DictEntry>, at: usize, entry: DictEntry) -> Result<(), Memory>
    requires { at ≤ length entries.old.items }
    ensures ok { OnOk result (entries.new.items ≡ insert entries.old.items at entry) }
    ensures err { OnErr result (entries.new.items ≡ entries.old.items) }
{
    match entries.insert(at, entry) {
        Ok(()) => Ok(()),
        Err(_) => Err(Memory),
    }
}

/// Whether the entry at a place, if there is one, has the key of this entry.
fn stands_at(entries: &[DictEntry], at: usize, entry: &DictEntry) -> bool
    ensures here { IsTrue result → at < length entries.now }
    ensures same { at < length entries.now → result ≡ is_at (entry_key entry.now) (get_or entries.now at no_entry) }
{
    at < entries.len() && has_key_of(entries, at, entry)
}

/// Puts an entry among others, which are in the order of their keys. Takes memory; where that is
/// wanting, nothing was changed.
fn put_entry(entries: &mut Vec<DictEntry>, entry: DictEntry) -> Result<(), Memory>
    ensures ok { are_ordered entries.old.items ≡ true → OnOk result (entries.new.items ≡ put_in entry entries.old.items) }
    ensures err { OnErr result (entries.new.items ≡ entries.old.items) }
    ensures ordered { are_ordered entries.old.items ≡ true → are_ordered entries.new.items ≡ true }
{
    let at = count_before_entry(entries, &entry);
    if stands_at(entries, at, &entry) {
        replace(entries, at, entry);
        return Ok(());
    }
    add(entries, at, entry)
}

/// The dictionary, which contracts see as the list of its entries in the order of their keys. No key
/// stands twice.
#[derive(Drop)]
pub struct Dict {
    entries: Vec<DictEntry>,
}

impl Model for Dict {
    ghost use Rattle.std.specs.Prelude.{List, ◌≡◌, true};
    ghost use Rattle.mr_dict_entry.specs.declared.entry.DictEntry.{DictEntry};
    ghost use Rattle.mr_dict.specs.Dictionary.{are_ordered};

    ghost Value = { List DictEntry };

    ghost view = { λ d. d.entries.items };

    ghost invariant = { λ d. are_ordered d.entries.items ≡ true };
}

impl Dict {
    /// A dictionary without entries.
    pub fn new(alloc: Global) -> Dict
        ensures { result ≡ [] }
    {
        Dict {
            entries: Vec::new(alloc),
        }
    }

    /// How many entries there are.
    pub fn count(&self) -> usize
        ensures { result ≡ length self.now }
    {
        self.entries.len()
    }

    /// The entry at a place.
    pub fn entry(&self, at: usize) -> &DictEntry
        requires { at < length self.now }
        ensures { slice_get self.now at ≡ Some result.now }
    {
        &self.entries[at]
    }

    /// The entries, in the order of their keys.
    pub fn as_slice(&self) -> &[DictEntry]
        ensures entries { result.now ≡ self.now }
        ensures ordered { are_ordered self.now ≡ true }
    {
        &self.entries
    }

    /// The place of the entry whose key is of this kind, with these bytes behind it; None exactly
    /// where no entry has that key.
    pub fn find(&self, kind: u32, rest: &[u8]) -> Option<usize>
        ensures { result ≡ position (is_at (kinded_key kind rest.now)) self.now }
    {
        place_of(&self.entries, kind, rest)
    }

    /// Takes out the entry at a place.
    pub fn remove(&mut self, at: usize)
        requires { at < length self.old }
        ensures { self.new ≡ remove self.old at }
    {
        take_out(&mut self.entries, at);
    }

    /// Adds an entry, or puts it in the place of the one with its key. Takes memory; where that is
    /// wanting, nothing was changed.
    pub fn put(&mut self, entry: DictEntry) -> Result<(), Memory>
        ensures ok { OnOk result (self.new ≡ put_in entry self.old) }
        ensures err { OnErr result (self.new ≡ self.old) }
    {
        put_entry(&mut self.entries, entry)
    }
}
