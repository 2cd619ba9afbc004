//! The commits of one statement.

ghost use Rattle.std.specs.Prelude.{◌≡◌, ◌≤◌, ℕ, [], length, Result, Ok, Err};
ghost use Rattle.mr_types.specs.declared.statement.Statement.{Statement};
ghost use Rattle.mr_spec.specs.ScriptRun.{event_at};
ghost use Rattle.mr_spec.specs.World.{World};
ghost use Rattle.mr_steps.specs.Adding.{Adds};

/// A statement adds the open transaction's commit, where it commits it first, and then at most one of
/// its own, each at the statement's moment: COMMIT that of the transaction, a statement on rows one of
/// its table's rows, outside a transaction, a statement on a definition one of its table. All others
/// add none, nor does a text that is no statement.
pub fn statements_add_one_commit_at_most()
    ensures adds { (w : World) (s : Statement) (clock : ℕ) → Adds w s clock (event_at w (Ok s) clock).added }
    ensures unread { (w : World) (code clock : ℕ) → (event_at w (Err code) clock).added ≡ [] }
    ensures few { (w : World) (s : Result Statement ℕ) (clock : ℕ) → length (event_at w s clock).added ≤ 2 }
{}
