//! Families that become known.
ghost use Rattle.std.specs.Prelude.{◌≡◌, ◌&&◌, ◌∷◌, [], ℕ, not, IfOk, OnOk, OnErr};
ghost use Rattle.mr_base.specs.declared.stop.Direction.TheVariants.{Forward};
ghost use Rattle.mr_family.specs.Family.{direction as direction_of};
ghost use Rattle.mr_families.specs.Known.{AreKept, IsTold, IsAt, empty_family, family_at, is_empty, numbers};
ghost use Rattle.mr_families.specs.Changed.{is_same as are_same, Learnt};

use crate::numbered::Numbered;
use crate::places::{insert_at, place_of, replace_at};
use mr_base::{Direction, Memory};
use mr_family::Family;
use std::alloc::Global;

/// An empty family. Takes memory.
pub fn empty_of(alloc: Global, direction: Direction) -> Result<Family, Memory>
    ensures { IfOk result (λ f. f ≡ empty_family direction) }
{
    let family = Family::new(alloc, direction)?;
    // The call tells that the versions in memory have the family's direction.
    let _direction = family.direction();
    Ok(family)
}

/// An empty family under a number. Takes memory.
pub fn fresh(alloc: Global, number: u32, direction: Direction) -> Result<Numbered, Memory>
    ensures number { IfOk result (λ n. n.number ≡ number) }
    ensures family { IfOk result (λ n. n.family ≡ empty_family direction) }
    ensures told { IfOk result IsTold }
{
    let family = empty_of(alloc, direction)?;
    Ok(Numbered {
        number,
        family,
        in_memory: false,
        is_fresh: true,
    })
}

fn is_same(one: Direction, other: Direction) -> bool
    ensures { result ≡ are_same one other }
{
    match (one, other) {
        (Direction::Forward, Direction::Forward) => true,
        (Direction::Reverse, Direction::Reverse) => true,
        _ => false,
    }
}

/// Whether a family is empty and has another direction than this one.
fn is_to_turn(one: &Numbered, direction: Direction) -> bool
    requires { IsTold one.now }
    ensures { result ≡ (is_empty one.now.family && not (are_same direction (direction_of one.now.family))) }
{
    one.is_fresh && !is_same(direction, one.family.direction())
}

/// Gives a family that is empty another direction. Takes memory.
fn turn(
    list: &mut Vec<Numbered>,
    alloc: Global,
    place: usize,
    number: u32,
    direction: Direction,
) -> Result<(), Memory>
    requires kept { AreKept list.old.items }
    requires place { IsAt list.old.items number place }
    ensures kept { AreKept list.new.items }
    ensures learnt { OnOk result (Learnt number direction list.old.items list.new.items) }
    ensures unchanged { OnErr result (list.new.items ≡ list.old.items) }
{
    if !is_to_turn(&list[place], direction) {
        return Ok(());
    }
    let one = fresh(alloc, number, direction)?;
    replace_at(list, place, one);
    Ok(())
}

/// Makes a number known with a direction. Takes memory.
pub fn learn_in(
    list: &mut Vec<Numbered>,
    alloc: Global,
    number: u32,
    direction: Direction,
) -> Result<(), Memory>
    requires { AreKept list.old.items }
    ensures kept { AreKept list.new.items }
    ensures learnt { OnOk result (Learnt number direction list.old.items list.new.items) }
    ensures unchanged { OnErr result (list.new.items ≡ list.old.items) }
{
    match place_of(list, number) {
        Ok(place) => turn(list, alloc, place, number, direction),
        Err(place) => {
            let one = fresh(alloc, number, direction)?;
            insert_at(list, place, one)
        }
    }
}

/// Families 0 and 1, forward and empty. Takes memory.
pub fn first_two(alloc: Global) -> Result<Vec<Numbered>, Memory>
    ensures kept { IfOk result (λ list. AreKept list.items) }
    ensures numbers { IfOk result (λ list. numbers list.items ≡ 0 ∷ 1 ∷ []) }
    ensures empty { (number : ℕ) → IfOk result (λ list. family_at list.items number ≡ empty_family Forward) }
{
    let zero = fresh(alloc, 0, Direction::Forward)?;
    let one = fresh(alloc, 1, Direction::Forward)?;
    match Vec::from_array(alloc, [zero, one]) {
        Ok(list) => Ok(list),
        Err(_) => Err(Memory),
    }
}
