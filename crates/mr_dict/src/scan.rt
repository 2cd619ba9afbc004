//! Entries that are looked for by what they say, among those of one kind.

ghost use Rattle.std.specs.Prelude.{◌≡◌, ◌<◌, ◌==◌, ◌^◌, length, get_or, true};
ghost use Rattle.std.specs.List.{list_any, position};
ghost use Rattle.mr_dict.specs.Dictionary.{are_ordered};
ghost use Rattle.mr_dict.specs.Lookups.{is_kind, wanted_kind, is_wanted as wants};
ghost use Rattle.mr_dict.specs.Given.{no_entry};

use crate::keys::kind_of;
use crate::places::count_before;
use mr_dict_entry::DictEntry;

/// Which entries are looked for.
#[derive(Clone, Copy, Drop)]
pub enum Wanted<'a> {
    /// All of this kind.
    First(u32),
    /// Tables that have a key of this index number.
    Numbered(u32),
    /// Families of this name.
    Named(&'a [u8]),
    /// Building indexes of this table.
    BuildingOn(&'a [u8]),
}

fn kind_of_wanted(wanted: &Wanted<'_>) -> u32
    ensures { result ≡ wanted_kind wanted.now }
{
    match wanted {
        Wanted::First(kind) => *kind,
        Wanted::Numbered(_) => 1,
        Wanted::Named(_) => 3,
        Wanted::BuildingOn(_) => 5,
    }
}

fn contains(numbers: &[u32], number: u32) -> bool
    ensures { result ≡ list_any (λ n. n == number) numbers.now }
{
    numbers.iter().any(|other| *other == number)
}

fn is_wanted(entry: &DictEntry, wanted: &Wanted<'_>) -> bool
    ensures { result ≡ wants wanted.now entry.now }
{
    match (wanted, entry) {
        (Wanted::First(kind), _) => kind_of(entry) == *kind,
        (Wanted::Numbered(number), DictEntry::Table { numbers, .. }) => {
            contains(numbers.as_slice(), *number)
        }
        (Wanted::Named(name), DictEntry::Family { name: other, .. }) => other.as_slice() == *name,
        (Wanted::BuildingOn(table), DictEntry::Building { table: other, .. }) => {
            other.as_slice() == *table
        }
        _ => false,
    }
}

fn is_of_kind(entries: &[DictEntry], at: usize, kind: u32) -> bool
    requires { at < length entries.now }
    ensures { result ≡ (is_kind kind (get_or entries.now at no_entry)) }
{
    kind_of(&entries[at]) == kind
}

fn is_wanted_at(entries: &[DictEntry], at: usize, wanted: &Wanted<'_>) -> bool
    requires { at < length entries.now }
    ensures { result ≡ wants wanted.now (get_or entries.now at no_entry) }
{
    is_wanted(&entries[at], wanted)
}

/// The place of the first entry, if they are in order, that is looked for. It goes over entries of
/// one kind alone.
pub fn first_wanted(entries: &[DictEntry], wanted: &Wanted<'_>) -> Option<usize>
    ensures { are_ordered entries.now ≡ true → result ≡ position (wants wanted.now) entries.now }
{
    let kind = kind_of_wanted(wanted);
    let from = count_before(entries, kind, &[]);
    'looking: for at in from..entries.len() {
        if !is_of_kind(entries, at, kind) {
            return None;
        }
        if is_wanted_at(entries, at, wanted) {
            return Some(at);
        }
    }
    None
}
