//! Sessions let go of claims, and commits are forgotten.
ghost use Rattle.std.specs.Prelude.{◌≡◌, ◌==◌, ◌-◌, ◌<◌, ◌≤◌, ◌+◌, ◌||◌, ℕ, List, Some, [], cond, true, false, if◌then◌else◌, take, drop, is_some};
ghost use Rattle.std.specs.VecDeque.{deque_len, deque_capacity};
ghost use Rattle.mr_claims.specs.Lists.{has, times};
ghost use Rattle.mr_claims.specs.Kept.{held_in, entry_in, count_of, noted, marked, Counted, AreNeeded, is_needed, needed_only, unless_forgotten, holding};
ghost use Rattle.mr_claims.specs.Commits.{BeginBehind, HasRoom, IsWith, Rise, RisesFrom, last_of};

use crate::commit::Commit;
use crate::commits::{Commits, add_commit, take_up_to};
use crate::entries::{Entries, drop_unneeded, lower};
use crate::lists::{Lists, claims_of, shorten, take_claims};
use mr_base::Blob;
use std::alloc::Global;

/// One hold less for each of these claims. With a number, they are noted as of this commit.
fn lower_each(entries: &mut Entries, session: u8, claims: &[Blob], change: Option<u64>)
    requires { (c : List ℕ) → times c claims.now ≤ count_of session (entry_in entries.old c) }
    ensures counts { (s : ℕ) (c : List ℕ) → count_of s (entry_in entries.new c) ≡ count_of s (entry_in entries.old c) - cond (s == session) (times c claims.now) 0 }
    ensures noted { (c : List ℕ) → noted (entry_in entries.new c) ≡ cond (has c claims.now) (marked change (noted (entry_in entries.old c))) (noted (entry_in entries.old c)) }
    ensures others { (c : List ℕ) → has c claims.now ≡ false → entry_in entries.new c ≡ entry_in entries.old c }
{
    'lowering: for claim in claims {
        lower(entries, session, claim.as_slice(), change);
    }
}

/// Takes the entries of these claims out, where they say nothing but commits up to this number.
fn drop_each(entries: &mut Entries, claims: &[Blob], before: u64)
    ensures { (c : List ℕ) → entry_in entries.new c ≡ cond (has c claims.now) (needed_only before (entry_in entries.old c)) (entry_in entries.old c) }
{
    'dropping: for claim in claims {
        drop_unneeded(entries, claim.as_slice(), before);
    }
}

/// A session keeps so many of its first claims and lets the others go. No entry is left that says nothing but commits up to this
/// number.
pub fn release(lists: &mut Lists, entries: &mut Entries, session: u8, count: usize, before: u64)
    requires counted { Counted lists.old entries.old }
    requires needed { AreNeeded before entries.old }
    ensures held { (s : ℕ) → held_in lists.new s ≡ (if s == session then take count (held_in lists.old s) else held_in lists.old s) }
    ensures counted { Counted lists.new entries.new }
    ensures noted { (c : List ℕ) → unless_forgotten before (noted (entry_in entries.new c)) ≡ unless_forgotten before (noted (entry_in entries.old c)) }
    ensures needed { AreNeeded before entries.new }
{
    let claims = claims_of(lists, session);
    if count < claims.len() {
        let (_, others) = claims.split_at(count);
        lower_each(entries, session, others, None);
        drop_each(entries, others, before);
        shorten(lists, session, count);
    }
}

/// A session's claims become those of commit k, which is behind the forgotten ones.
pub fn commit_claims(
    lists: &mut Lists,
    entries: &mut Entries,
    commits: &mut Commits,
    alloc: Global,
    session: u8,
    k: u64,
)
    requires counted { Counted lists.old entries.old }
    requires room { HasRoom lists.old commits.old }
    ensures held { (s : ℕ) → held_in lists.new s ≡ (if s == session then [] else held_in lists.old s) }
    ensures counted { Counted lists.new entries.new }
    ensures noted { (c : List ℕ) → noted (entry_in entries.new c) ≡ cond (has c (held_in lists.old session)) (Some k) (noted (entry_in entries.old c)) }
    ensures others { (c : List ℕ) → has c (held_in lists.old session) ≡ false → entry_in entries.new c ≡ entry_in entries.old c }
    ensures commits { IsWith k (held_in lists.old session) commits.old.items commits.new.items }
    ensures room { HasRoom lists.new commits.new }
{
    let claims = take_claims(lists, alloc, session);
    if !claims.is_empty() {
        lower_each(entries, session, &claims, Some(k));
        let commit = Commit { number: k, claims };
        add_commit(commits, commit);
    }
}

/// Takes the commits up to this number out, and the entries that are not needed without them.
pub fn forget_commits(entries: &mut Entries, commits: &mut Commits, before: u64)
    requires { (c : List ℕ) → (is_needed before (entry_in entries.old c) || is_some (last_of commits.old.items c)) ≡ true }
    ensures counts { (s : ℕ) (c : List ℕ) → count_of s (entry_in entries.new c) ≡ count_of s (entry_in entries.old c) }
    ensures noted { (c : List ℕ) → unless_forgotten before (noted (entry_in entries.new c)) ≡ unless_forgotten before (noted (entry_in entries.old c)) }
    ensures last { (c : List ℕ) → unless_forgotten before (last_of commits.new.items c) ≡ unless_forgotten before (last_of commits.old.items c) }
    ensures needed { (c : List ℕ) → (is_needed before (entry_in entries.new c) || is_some (last_of commits.new.items c)) ≡ true }
    ensures begin { BeginBehind before commits.new.items }
    ensures rise { (n : ℕ) → Rise n commits.old.items → RisesFrom commits.new.items }
    ensures len { deque_len commits.new ≤ deque_len commits.old }
    ensures capacity { deque_capacity commits.new ≡ deque_capacity commits.old }
{
    'forgetting: while let Some(commit) = take_up_to(commits, before) {
        drop_each(entries, &commit.claims, before);
    }
}
