//! The entries of claims, by their bytes.
ghost use Rattle.std.specs.Prelude.{◌≡◌, ◌≢◌, ◌&&◌, ◌+◌, ◌-◌, ◌<◌, ◌^◌, ◌==◌, ℕ, List, Some, None, cond, is_some, true, false, OnOk, OnErr, suc};
ghost use Rattle.std.specs.Option.{IsSomeAnd};
ghost use Rattle.std.specs.Str.{bytes_eq};
ghost use Rattle.mr_claims.specs.Kept.{entry_in, count_of, noted, marked, an_empty_entry, needed_only, says_more};

use crate::entry::Entry;
use mr_base::{Blob, Memory};
use std::alloc::Global;
use std::collections::BTreeMap;

pub type Entries = BTreeMap<Vec<u8>, Entry>;

/// A claim's entry.
pub fn entry_of(entries: &Entries, claim: &[u8]) -> Option<Entry>
    ensures { result ≡ entry_in entries.now claim.now }
{
    match entries.get(claim) {
        Some(entry) => Some(*entry),
        None => None,
    }
}

/// An entry for a claim that has none.
fn put_new(entries: &mut Entries, alloc: Global, claim: &[u8]) -> Result<(), Memory>
    requires { entry_in entries.old claim.now ≡ None }
    ensures ok { OnOk result ((c : List ℕ) → entry_in entries.new c ≡ cond (bytes_eq claim.now c) (Some an_empty_entry) (entry_in entries.old c)) }
    ensures err { OnErr result ((c : List ℕ) → entry_in entries.new c ≡ entry_in entries.old c) }
{
    let copy = Blob::from_slice(alloc, claim)?;
    let key = copy.into_vec();
    let entry = Entry {
        session: 0,
        count: 0,
        changed: None,
    };
    let Ok(_) = entries.insert(key, entry) else {
        return Err(Memory);
    };
    Ok(())
}

/// Makes an entry for a claim that has none, or finds room for one more in the one that it has. Takes memory; what the entries say
/// stays, and after an error so do they.
pub fn make_entry(entries: &mut Entries, alloc: Global, claim: &[u8]) -> Result<(), Memory>
    ensures room { OnOk result (IsSomeAnd (entry_in entries.new claim.now) (λ e. e.count + 1 < 2 ^ 64)) }
    ensures counts { (session : ℕ) (c : List ℕ) → count_of session (entry_in entries.new c) ≡ count_of session (entry_in entries.old c) }
    ensures noted { (c : List ℕ) → noted (entry_in entries.new c) ≡ noted (entry_in entries.old c) }
    ensures others { (c : List ℕ) → bytes_eq claim.now c ≡ false → entry_in entries.new c ≡ entry_in entries.old c }
    ensures err { OnErr result ((c : List ℕ) → entry_in entries.new c ≡ entry_in entries.old c) }
{
    if let Some(entry) = entry_of(entries, claim) {
        return if entry.count < usize::MAX {
            Ok(())
        } else {
            Err(Memory)
        };
    }
    put_new(entries, alloc, claim)
}

/// Puts this in the place of a claim's entry.
fn replace(entries: &mut Entries, claim: &[u8], entry: Entry)
    requires there { is_some (entry_in entries.old claim.now) ≡ true }
    ensures { (c : List ℕ) → entry_in entries.new c ≡ cond (bytes_eq claim.now c) (Some entry) (entry_in entries.old c) }
{
    match entries.get_mut(claim) {
        Some(old) => *old = entry,
        None => {}
    }
}

/// One hold more by the session.
pub fn raise(entries: &mut Entries, session: u8, claim: &[u8])
    requires room { IsSomeAnd (entry_in entries.old claim.now) (λ e. e.count + 1 < 2 ^ 64) }
    requires alone { (s : ℕ) → s ≢ session → count_of s (entry_in entries.old claim.now) ≡ 0 }
    ensures counts { (s : ℕ) (c : List ℕ) → count_of s (entry_in entries.new c) ≡ cond (s == session && bytes_eq claim.now c) (suc (count_of s (entry_in entries.old c))) (count_of s (entry_in entries.old c)) }
    ensures noted { (c : List ℕ) → noted (entry_in entries.new c) ≡ noted (entry_in entries.old c) }
    ensures others { (c : List ℕ) → bytes_eq claim.now c ≡ false → entry_in entries.new c ≡ entry_in entries.old c }
    ensures held { IsSomeAnd (entry_in entries.new claim.now) (λ e. 0 < e.count) }
{
    let Some(entry) = entry_of(entries, claim) else {
        return;
    };
    let raised = Entry {
        session,
        count: entry.count + 1,
        changed: entry.changed,
    };
    replace(entries, claim, raised);
}

/// One hold less by the session. With a number, the claim is noted as of this commit.
pub fn lower(entries: &mut Entries, session: u8, claim: &[u8], change: Option<u64>)
    requires held { 0 < count_of session (entry_in entries.old claim.now) }
    ensures counts { (s : ℕ) (c : List ℕ) → count_of s (entry_in entries.new c) ≡ cond (s == session && bytes_eq claim.now c) (count_of s (entry_in entries.old c) - 1) (count_of s (entry_in entries.old c)) }
    ensures noted { (c : List ℕ) → noted (entry_in entries.new c) ≡ cond (bytes_eq claim.now c) (marked change (noted (entry_in entries.old c))) (noted (entry_in entries.old c)) }
    ensures others { (c : List ℕ) → bytes_eq claim.now c ≡ false → entry_in entries.new c ≡ entry_in entries.old c }
{
    let Some(entry) = entry_of(entries, claim) else {
        return;
    };
    let lowered = Entry {
        session: entry.session,
        count: entry.count - 1,
        changed: change.or(entry.changed),
    };
    replace(entries, claim, lowered);
}

/// Takes a claim's entry out.
fn remove(entries: &mut Entries, claim: &[u8])
    ensures { (c : List ℕ) → entry_in entries.new c ≡ cond (bytes_eq claim.now c) None (entry_in entries.old c) }
{
    entries.remove(claim);
}

/// Whether an entry says more than commits up to this number.
fn is_needed(entry: &Entry, before: u64) -> bool
    ensures { result ≡ says_more before entry.now }
{
    let is_changed = match entry.changed {
        Some(k) => before < k,
        None => false,
    };
    entry.count > 0 || is_changed
}

/// Takes a claim's entry out, where it says nothing but commits up to this number.
pub fn drop_unneeded(entries: &mut Entries, claim: &[u8], before: u64)
    ensures { (c : List ℕ) → entry_in entries.new c ≡ cond (bytes_eq claim.now c) (needed_only before (entry_in entries.old c)) (entry_in entries.old c) }
{
    let Some(entry) = entry_of(entries, claim) else {
        return;
    };
    if !is_needed(&entry, before) {
        remove(entries, claim);
    }
}
