//! The claims of each session, in the order in which it came to hold them.
ghost use Rattle.std.specs.Prelude.{◌≡◌, ◌==◌, ◌++◌, ◌∷◌, ◌<◌, ℕ, [], if◌then◌else◌, take, vec_len, vec_capacity, OnOk};
ghost use Rattle.std.specs.BTreeMap.{get};
ghost use Rattle.std.specs.Ordering.{nat_cmp};
ghost use Rattle.std.specs.Option.{IsSomeAnd};
ghost use Rattle.mr_claims.specs.Kept.{held_in};

use mr_base::{Blob, Memory};
use std::alloc::Global;
use std::collections::BTreeMap;

pub type Lists = BTreeMap<u8, Vec<Blob>>;

/// Makes room for one more claim of a session. Takes memory; the claims stay.
pub fn make_room(lists: &mut Lists, alloc: Global, session: u8) -> Result<(), Memory>
    ensures held { (s : ℕ) → held_in lists.new s ≡ held_in lists.old s }
    ensures room { OnOk result (IsSomeAnd (get nat_cmp lists.new session) (λ v. vec_len v < vec_capacity v)) }
{
    match lists.get_mut(&session) {
        Some(list) => match list.reserve(1) {
            Ok(()) => Ok(()),
            Err(_) => Err(Memory),
        },
        None => {
            let Ok(list) = Vec::with_capacity(alloc, 4) else {
                return Err(Memory);
            };
            match lists.insert(session, list) {
                Ok(_) => Ok(()),
                Err(_) => Err(Memory),
            }
        }
    }
}

/// Adds a claim to a session's list, where there is room. Takes no memory.
pub fn add(lists: &mut Lists, session: u8, claim: Blob)
    requires room { IsSomeAnd (get nat_cmp lists.old session) (λ v. vec_len v < vec_capacity v) }
    ensures held { (s : ℕ) → held_in lists.new s ≡ (if s == session then held_in lists.old s ++ claim ∷ [] else held_in lists.old s) }
{
    match lists.get_mut(&session) {
        Some(list) => match list.push(claim) {
            Ok(()) => {}
            Err(_) => {}
        },
        None => {}
    }
}

/// A session's claims.
pub fn claims_of(lists: &Lists, session: u8) -> &[Blob]
    ensures { result.now ≡ held_in lists.now session }
{
    match lists.get(&session) {
        Some(list) => list,
        None => &[],
    }
}

/// Keeps so many of a session's first claims.
pub fn shorten(lists: &mut Lists, session: u8, count: usize)
    ensures { (s : ℕ) → held_in lists.new s ≡ (if s == session then take count (held_in lists.old s) else held_in lists.old s) }
{
    match lists.get_mut(&session) {
        Some(list) => list.truncate(count),
        None => {}
    }
}

/// Takes a session's claims out.
pub fn take_claims(lists: &mut Lists, alloc: Global, session: u8) -> Vec<Blob>
    ensures claims { result.items ≡ held_in lists.old session }
    ensures held { (s : ℕ) → held_in lists.new s ≡ (if s == session then [] else held_in lists.old s) }
{
    match lists.remove(&session) {
        Some(list) => list,
        None => Vec::new(alloc),
    }
}
