//! Snapshots, by the numbers of commits.

ghost use Rattle.std.specs.Prelude.{◌≡◌, ◌≤◌, ℕ, true, List, length, Some, None, Result, Ok};
ghost use Rattle.mr_types.specs.declared.row.Commit.{Commit};
ghost use Rattle.mr_types.specs.declared.statement.Statement.{Statement};
ghost use Rattle.mr_types.specs.declared.statement.Statement.TheVariants as statement;
ghost use Rattle.mr_spec.specs.declared.world.Txn.{Txn};
ghost use Rattle.mr_spec.specs.Replay.{reopened};
ghost use Rattle.mr_spec.specs.ScriptRun.{world_after, world_behind};
ghost use Rattle.mr_spec.specs.World.{World};
ghost use Rattle.mr_laws.specs.Snapshots.{StaysInPlace};
ghost use Rattle.mr_steps.specs.Since.{LieSince};

/// The snapshot of each open session lies between the number of commits at the opening and that of
/// those now, at the opening, behind each statement, and so behind a run.
pub fn snapshots_lie_since_the_opening()
    ensures opened { (commits : List Commit) → LieSince (length commits) (reopened commits) }
    ensures after { (n : ℕ) (w : World) (s : Result Statement ℕ) (clock : ℕ) → n ≤ length w.commits → LieSince n w → LieSince n (world_after w s clock) }
    ensures run { (commits : List Commit) (ss : List (Result Statement ℕ)) (now : ℕ → ℕ) → LieSince (length commits) (world_behind (reopened commits) ss now) }
{}

/// A snapshot is fixed at the number of all commits: that of an open transaction by the first
/// statement that fixes it, and that of START TRANSACTION WITH CONSISTENT SNAPSHOT at its beginning,
/// behind the commit of the transaction that it ends.
pub fn snapshots_are_fixed_at_all_commits()
    ensures first { (w : World) (s : Result Statement ℕ) (clock n : ℕ) (t u : Txn) → StaysInPlace s → w.here.txn ≡ Some t → t.snapshot ≡ None → (world_after w s clock).here.txn ≡ Some u → u.snapshot ≡ Some n → n ≡ length w.commits }
    ensures begun { (w : World) (clock : ℕ) (t : Txn) → (world_after w (Ok (statement.Begin true)) clock).here.txn ≡ Some t → t.snapshot ≡ Some (length (world_after w (Ok (statement.Begin true)) clock).commits) }
{}
