//! What follows from the definitions, for callers to cite.

ghost use Rattle.std.specs.Prelude.{◌≡◌, ℕ, true, List, None, Result, Ok, ◌++◌};
ghost use Rattle.mr_spec.specs.declared.world.Session.{Session};
ghost use Rattle.mr_types.specs.declared.definition.IndexDef.{IndexDef};
ghost use Rattle.mr_types.specs.declared.definition.TableDef.{TableDef};
ghost use Rattle.mr_types.specs.declared.expr.Expr.{Expr};
ghost use Rattle.mr_types.specs.declared.row.Row.{Row};
ghost use Rattle.mr_types.specs.declared.row.Commit.{Commit};
ghost use Rattle.mr_types.specs.declared.statement.Statement.{Statement};
ghost use Rattle.mr_types.specs.declared.statement.Statement.TheVariants as statement;
ghost use Rattle.mr_spec.specs.Truth.{truth_of};
ghost use Rattle.mr_spec.specs.Binding.{bound_of, bound_truth};
ghost use Rattle.mr_spec.specs.Database.{replay};
ghost use Rattle.mr_spec.specs.World.{World, view_of};
ghost use Rattle.mr_spec.specs.Replay.{reopened};
ghost use Rattle.mr_spec.specs.Outcome.{done};
ghost use Rattle.mr_spec.specs.Step.{step, outcome_of, timed};
ghost use Rattle.mr_spec.specs.ScriptRun.{trace, added_by, world_after, world_behind, is_refusal};
ghost use Rattle.mr_spec.specs.Promises.{RefusalLeaves, Extends, SnapshotStays, SameOthers, IsOfOne, others_in, moved, Collides};

/// A refused statement appends nothing but the session's open transaction, where it is one that
/// commits it first, and leaves the other sessions. Its further traces are a fixed snapshot, a used
/// table, drawn hidden numbers, a transaction that a lost race has ended, and a building index that
/// was found to have duplicates.
pub fn refusals_leave_the_world()
    ensures { (w : World) (s : Result Statement ℕ) (clock : ℕ) → is_refusal (step w s clock).reply ≡ true → RefusalLeaves w s clock }
{}

/// WORK changes nothing but the moment.
pub fn work_moves_the_moment_alone()
    ensures { (w : World) (n clock : ℕ) → step w (Ok (statement.Work n)) clock ≡ done (timed w clock) 0 }
{}

/// A statement keeps the commits, and adds its own behind them.
pub fn commits_are_kept()
    ensures { (w : World) (s : Result Statement ℕ) (clock : ℕ) → Extends w.commits (world_after w s clock).commits }
{}

/// A session outside a transaction sees what replaying the commits gives, those of a run among them.
pub fn replay_is_what_is_seen()
    ensures outside { (commits : List Commit) → view_of commits None ≡ replay commits }
    ensures behind { (commits : List Commit) (ss : List (Result Statement ℕ)) (now : ℕ → ℕ) → view_of (world_behind (reopened commits) ss now).commits None ≡ replay (commits ++ added_by (trace (reopened commits) ss now)) }
{}

/// What a transaction sees stays, whatever others commit, once its snapshot is fixed.
pub fn snapshots_stay()
    ensures { (w : World) (s : Result Statement ℕ) (clock : ℕ) → SnapshotStays w s clock }
{}

/// A statement asks of other sessions only which claims they hold and which tables they used.
pub fn others_count_by_their_claims()
    ensures { (s : Statement) (os : List Session) (w : World) → IsOfOne s → SameOthers w.others os → outcome_of s (others_in os w) ≡ moved os (outcome_of s w) }
{}

/// The same values collide in a unique key, and NULLs never do.
pub fn same_values_collide()
    ensures { (def : TableDef) (r s : Row) (key : IndexDef) → Collides def r s key }
{}

/// A condition that is bound to a table has on each row the truth of the one that was written.
pub fn bound_conditions_agree()
    ensures { (def : TableDef) (row : Row) (e : Expr) → truth_of def row e ≡ bound_truth def row (bound_of def e) }
{}
