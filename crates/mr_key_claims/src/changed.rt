//! Claims that later commits have had.

ghost use Rattle.std.specs.Prelude.{ℕ, List};
ghost use Rattle.mr_types.specs.declared.definition.TableDef.{TableDef};
ghost use Rattle.mr_types.specs.declared.row.Change.{Change};
ghost use Rattle.mr_types.specs.declared.row.Commit.{Commit};
ghost use Rattle.mr_key_claims.specs.Promises.{ChangedByLastCommits};

/// A commit behind the first n has had a claim of a change exactly where the last commit of some
/// claim of it is above n: this is what 1213 is judged by. So the last commit of each claim is all
/// that has to be kept.
pub fn changed_since_is_by_last_commits()
    ensures { (def : TableDef) (name : List ℕ) (commits : List Commit) (n : ℕ) (c : Change) → ChangedByLastCommits def name commits n c }
{}
