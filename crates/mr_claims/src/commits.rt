//! The commits whose claims are kept, in the order of their numbers.
ghost use Rattle.std.specs.Prelude.{◌≡◌, ◌+◌, ◌<◌, ◌≤◌, ◌++◌, ◌∷◌, [], None, Option, MatchOption, OnOk};
ghost use Rattle.std.specs.VecDeque.{deque_len, deque_capacity};
ghost use Rattle.mr_claims.specs.Commits.{BeginBehind};

use crate::commit::Commit;
use mr_base::Memory;
use std::collections::VecDeque;

pub type Commits = VecDeque<Commit>;

/// How many sessions there can be.
pub const SESSIONS: usize = 256;

/// Makes room for a commit of each session. Takes memory; the commits stay.
pub fn make_room_for_commits(commits: &mut Commits) -> Result<(), Memory>
    ensures items { commits.new.items ≡ commits.old.items }
    ensures len { deque_len commits.new ≡ deque_len commits.old }
    ensures capacity { deque_capacity commits.old ≤ deque_capacity commits.new }
    ensures room { OnOk result (256 + deque_len commits.new ≤ deque_capacity commits.new) }
{
    match commits.reserve(SESSIONS) {
        Ok(()) => Ok(()),
        Err(_) => Err(Memory),
    }
}

/// Adds a commit behind the others, where there is room. Takes no memory.
pub fn add_commit(commits: &mut Commits, commit: Commit)
    requires room { deque_len commits.old < deque_capacity commits.old }
    ensures items { commits.new.items ≡ commits.old.items ++ commit ∷ [] }
    ensures len { deque_len commits.new ≡ deque_len commits.old + 1 }
    ensures capacity { deque_capacity commits.new ≡ deque_capacity commits.old }
{
    match commits.push_back(commit) {
        Ok(()) => {}
        Err(_) => {}
    }
}

/// Takes the first commit out, where its number isn't behind this one.
pub fn take_up_to(commits: &mut Commits, before: u64) -> Option<Commit>
    ensures items { MatchOption result ((commits.new.items ≡ commits.old.items) × BeginBehind before commits.old.items) (λ m. (commits.old.items ≡ m ∷ commits.new.items) × (m.number ≤ before)) }
    ensures len { deque_len commits.new ≤ deque_len commits.old }
    ensures capacity { deque_capacity commits.new ≡ deque_capacity commits.old }
{
    match commits.front() {
        Some(commit) => {
            if commit.number > before {
                return None;
            }
        }
        None => return None,
    }
    commits.pop_front()
}
