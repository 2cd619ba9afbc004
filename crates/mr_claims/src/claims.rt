//! Claims as their callers see them.
ghost use Rattle.mr_claims.specs.Commits.{IsKept, IsKept-prop};

use crate::claimed::Claimed;
use crate::commits::{Commits, make_room_for_commits};
use crate::entries::{Entries, entry_of, make_entry, raise};
use crate::judge::judge;
use crate::lists::{Lists, add, make_room};
use crate::release::{commit_claims, forget_commits, release};
use mr_base::{Blob, Memory};
use std::alloc::Global;
use std::collections::{BTreeMap, VecDeque};

/// Which session holds which claims, and by which commit each claim was last changed. A claim is a list of bytes; no claim is held
/// by two sessions. An entry and a commit stay only while a session holds a claim of theirs, or a commit behind the forgotten ones has
/// it.
#[derive(Drop)]
pub struct Claims {
    alloc: Global,
    lists: Lists,
    entries: Entries,
    commits: Commits,
    before: u64,
    ghost kept: { IsKept lists entries commits before } by { IsKept-prop lists entries commits before },
}

impl Claims {
    ghost use Rattle.std.specs.Prelude.{◌≡◌, ◌≢◌, ◌==◌, ◌<◌, ◌≤◌, ◌++◌, ◌∷◌, ℕ, List, [], None, true, if◌then◌else◌, take, max, IfSome, OnOk, OnErr};
    ghost use Rattle.mr_claims.specs.declared.claimed.Claimed.TheVariants.{Held};
    ghost use Rattle.mr_claims.specs.Lists.{has, after_commit};
    ghost use Rattle.mr_claims.specs.Kept.{unless_forgotten};
    ghost use Rattle.mr_claims.specs.Claims.{state, IsClaimed, IsNotHeldByOthers};

    /// No claim is held or was changed.
    pub fn new(alloc: Global) -> Claims
        ensures held { (s : ℕ) → (state result).held s ≡ [] }
        ensures changed { (c : List ℕ) → (state result).changed c ≡ None }
        ensures before { (state result).before ≡ 0 }
    {
        Claims {
            alloc,
            lists: BTreeMap::new(alloc),
            entries: BTreeMap::new(alloc),
            commits: VecDeque::new(alloc),
            before: 0,
        }
    }

    /// What a claim is to a session whose snapshot is that of the first `since` commits. Takes no memory.
    pub fn test(&self, session: u8, since: u64, claim: &[u8]) -> Claimed
        requires { (state self.now).before ≤ since }
        ensures is { IsClaimed (state self.now) session since claim.now result }
        ensures held { (s : ℕ) → s ≢ session → has claim.now ((state self.now).held s) ≡ true → result ≡ Held s }
    {
        judge(entry_of(&self.entries, claim), session, since)
    }

    /// Puts a claim behind those that the session holds, also one that it holds already. Takes memory; after an error nothing has
    /// changed.
    pub fn hold(&mut self, session: u8, claim: &[u8]) -> Result<(), Memory>
        requires { IsNotHeldByOthers (state self.old) session claim.now }
        ensures ok { OnOk result ((s : ℕ) → (state self.new).held s ≡ (if s == session then (state self.old).held s ++ claim.now ∷ [] else (state self.old).held s)) }
        ensures err { OnErr result ((s : ℕ) → (state self.new).held s ≡ (state self.old).held s) }
        ensures changed { (c : List ℕ) → (state self.new).changed c ≡ (state self.old).changed c }
        ensures before { (state self.new).before ≡ (state self.old).before }
    {
        let copy = Blob::from_slice(self.alloc, claim)?;
        make_room_for_commits(&mut self.commits)?;
        make_room(&mut self.lists, self.alloc, session)?;
        make_entry(&mut self.entries, self.alloc, claim)?;
        raise(&mut self.entries, session, claim);
        add(&mut self.lists, session, copy);
        Ok(())
    }

    /// The session keeps so many of its first claims and lets the others go. Takes no memory.
    pub fn keep_first(&mut self, session: u8, count: usize)
        ensures held { (s : ℕ) → (state self.new).held s ≡ (if s == session then take count ((state self.old).held s) else (state self.old).held s) }
        ensures changed { (c : List ℕ) → (state self.new).changed c ≡ (state self.old).changed c }
        ensures before { (state self.new).before ≡ (state self.old).before }
    {
        release(
            &mut self.lists,
            &mut self.entries,
            session,
            count,
            self.before,
        );
    }

    /// The session's claims are changed by commit k, and it lets them go. Takes no memory.
    pub fn commit(&mut self, session: u8, k: u64)
        requires behind { (state self.old).before < k }
        requires last { (c : List ℕ) → IfSome ((state self.old).changed c) (λ j. j < k) }
        ensures held { (s : ℕ) → (state self.new).held s ≡ (if s == session then [] else (state self.old).held s) }
        ensures changed { (c : List ℕ) → (state self.new).changed c ≡ after_commit k ((state self.old).held session) c ((state self.old).changed c) }
        ensures before { (state self.new).before ≡ (state self.old).before }
    {
        commit_claims(
            &mut self.lists,
            &mut self.entries,
            &mut self.commits,
            self.alloc,
            session,
            k,
        );
    }

    /// Forgets the commits up to this number, in time by the claims that they have. Takes no memory.
    pub fn forget(&mut self, before: u64)
        ensures held { (s : ℕ) → (state self.new).held s ≡ (state self.old).held s }
        ensures changed { (c : List ℕ) → (state self.new).changed c ≡ unless_forgotten before ((state self.old).changed c) }
        ensures before { (state self.new).before ≡ max (state self.old).before before }
    {
        let before = self.before.max(before);
        forget_commits(&mut self.entries, &mut self.commits, before);
        self.before = before;
    }
}
