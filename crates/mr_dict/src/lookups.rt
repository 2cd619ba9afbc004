//! What a dictionary tells. No look-up takes memory.

ghost use Rattle.std.specs.Prelude.{◌≡◌, ◌<◌, IfSome, length};
ghost use Rattle.std.specs.List.{position, find};
ghost use Rattle.std.specs.Option.{option_copied};
ghost use Rattle.mr_dict_entry.specs.Entries.{kinded_key};
ghost use Rattle.mr_dict.specs.Dictionary.{is_at, entry_of};
ghost use Rattle.mr_dict.specs.Lookups.{commits_in, moment_in, greatest_in, next_in, index_family_in, family_name_in, family_in, has_number, builds_on, is_kind, is_wanted};

use crate::dict::Dict;
use crate::keys::bytes_of;
use crate::scan::{Wanted, first_wanted};
use mr_dict_entry::DictEntry;

/// The family of the dictionary, 0.
const SYSTEM: &[u8] = b"__system__";

/// The family of keys without a comment, 1.
const DEFAULT: &[u8] = b"default";

impl Dict {
    fn look_up(&self, kind: u32, rest: &[u8]) -> Option<&DictEntry>
        ensures { option_copied result ≡ entry_of (kinded_key kind rest.now) self.now }
    {
        match self.find(kind, rest) {
            Some(at) => Some(self.entry(at)),
            None => None,
        }
    }

    /// How many commits there are; 0 where none is recorded.
    pub fn commits(&self) -> u64
        ensures { result ≡ commits_in self.now }
    {
        match self.look_up(8, &[]) {
            Some(DictEntry::LastCommit { commits, .. }) => *commits,
            _ => 0,
        }
    }

    /// The moment of the last commit; 0 where none is recorded.
    pub fn moment(&self) -> u64
        ensures { result ≡ moment_in self.now }
    {
        match self.look_up(8, &[]) {
            Some(DictEntry::LastCommit { moment, .. }) => *moment,
            _ => 0,
        }
    }

    /// The greatest index number that was given; 255 where none is recorded.
    pub fn greatest_index(&self) -> u32
        ensures { result ≡ greatest_in self.now }
    {
        match self.look_up(6, &[]) {
            Some(DictEntry::Greatest(number)) => *number,
            _ => 255,
        }
    }

    /// The next hidden number of the table whose primary key has this index number; 1 where none is
    /// recorded.
    pub fn next_hidden(&self, number: u32) -> u64
        ensures { result ≡ next_in number self.now }
    {
        match self.look_up(7, &bytes_of(number)) {
            Some(DictEntry::NextHidden { next, .. }) => *next,
            _ => 1,
        }
    }

    /// The family of the index of this number.
    pub fn index_family(&self, number: u32) -> Option<u32>
        ensures { result ≡ index_family_in number self.now }
    {
        match self.look_up(2, &bytes_of(number)) {
            Some(DictEntry::Index { family, .. }) => Some(*family),
            _ => None,
        }
    }

    /// The name of a family. `__system__` is 0 and `default` 1, without a record.
    pub fn family_name(&self, family: u32) -> Option<&[u8]>
        ensures { option_copied result ≡ family_name_in family self.now }
    {
        if family == 0 {
            return Some(SYSTEM);
        }
        if family == 1 {
            return Some(DEFAULT);
        }
        match self.look_up(3, &bytes_of(family)) {
            Some(DictEntry::Family { name, .. }) => Some(name.as_slice()),
            _ => None,
        }
    }

    /// The number of the family of this name. `__system__` is 0 and `default` 1, without a record.
    pub fn family_number(&self, name: &[u8]) -> Option<u32>
        ensures { result ≡ family_in name.now self.now }
    {
        if name == SYSTEM {
            return Some(0);
        }
        if name == DEFAULT {
            return Some(1);
        }
        match self.first_entry(&Wanted::Named(name)) {
            Some(DictEntry::Family { family, .. }) => Some(*family),
            _ => None,
        }
    }

    /// The place of the table of this name, byte for byte.
    pub fn table(&self, name: &[u8]) -> Option<usize>
        ensures { result ≡ position (is_at (kinded_key 1 name.now)) self.now }
    {
        self.find(1, name)
    }

    /// The place of the table that has a key of this index number.
    pub fn table_of_index(&self, number: u32) -> Option<usize>
        ensures { result ≡ position (has_number number) self.now }
    {
        first_wanted(self.as_slice(), &Wanted::Numbered(number))
    }

    /// The place of the building index of the table of this name.
    pub fn building_on(&self, table: &[u8]) -> Option<usize>
        ensures { result ≡ position (builds_on table.now) self.now }
    {
        first_wanted(self.as_slice(), &Wanted::BuildingOn(table))
    }

    /// The place of the first entry of a kind; those of one kind stand behind one another.
    pub fn first_of(&self, kind: u32) -> Option<usize>
        ensures { result ≡ position (is_kind kind) self.now }
    {
        first_wanted(self.as_slice(), &Wanted::First(kind))
    }

    fn first_entry(&self, wanted: &Wanted<'_>) -> Option<&DictEntry>
        ensures { option_copied result ≡ find (is_wanted wanted.now) self.now }
    {
        match first_wanted(self.as_slice(), wanted) {
            Some(at) => Some(self.entry(at)),
            None => None,
        }
    }
}
