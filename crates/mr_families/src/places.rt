//! Where the family of a number stands.
ghost use Rattle.std.specs.Prelude.{◌≡◌, ◌<◌, ◌≤◌, length, get_or, set, IfOk, IfErr, OnOk, OnErr};
ghost use Rattle.std.specs.List.{insert};
ghost use Rattle.mr_base.specs.declared.stop.Direction.TheVariants.{Forward};
ghost use Rattle.mr_families.specs.Known.{AreAscending, AreKept, IsAt, IsGapFor, family_at, empty_family, numbers, is_known, are_out_of_memory};

use crate::numbered::Numbered;
use mr_base::Memory;
use mr_family::Family;

/// The place of the family of a number; where the number isn't known, the place at which it would stand.
pub fn place_of(list: &[Numbered], number: u32) -> Result<usize, usize>
    requires { AreAscending list.now }
    ensures found { IfOk result (IsAt list.now number) }
    ensures absent { IfErr result (IsGapFor list.now number) }
{
    list.binary_search_by_key(&number, |one| one.number)
}

/// The family of a number, or the empty one that is given where the number isn't known.
pub fn family_of<'a>(list: &'a [Numbered], empty: &'a Family, number: u32) -> &'a Family
    requires ascending { AreAscending list.now }
    requires empty { empty.now ≡ empty_family Forward }
    ensures { result.now ≡ family_at list.now number }
{
    match place_of(list, number) {
        Ok(place) => &list[place].family,
        Err(_) => empty,
    }
}

/// Puts a family at a place. Takes memory.
pub fn insert_at(list: &mut Vec<Numbered>, place: usize, one: Numbered) -> Result<(), Memory>
    requires { place ≤ length list.old.items }
    ensures added { OnOk result (list.new.items ≡ insert list.old.items place one) }
    ensures unchanged { OnErr result (list.new.items ≡ list.old.items) }
{
    match list.insert(place, one) {
        Ok(()) => Ok(()),
        Err(_) => Err(Memory),
    }
}

/// Puts a family in the place of another.
pub fn replace_at(list: &mut Vec<Numbered>, place: usize, one: Numbered)
    requires { place < length list.old.items }
    ensures { list.new.items ≡ set list.old.items place one }
{
    list[place] = one;
}

/// The number at a place.
pub fn number_in(list: &[Numbered], place: usize) -> u32
    requires { place < length (numbers list.now) }
    ensures { result ≡ get_or (numbers list.now) place 0 }
{
    list[place].number
}

/// Whether a number is known.
pub fn is_in(list: &[Numbered], number: u32) -> bool
    requires { AreAscending list.now }
    ensures { result ≡ is_known list.now number }
{
    place_of(list, number).is_ok()
}

/// Whether no family has a version in memory.
pub fn none_in_memory(list: &[Numbered]) -> bool
    requires { AreKept list.now }
    ensures { result ≡ are_out_of_memory list.now }
{
    'looking: for i in 0..list.len() {
        if list[i].in_memory {
            return false;
        }
    }
    true
}
