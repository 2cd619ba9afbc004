//! What becomes of snapshots and of other sessions.

ghost use Rattle.std.specs.Prelude.{◌≡◌, ℕ, false, List, ◌∷◌, find, codes, Contains, Some, Result, Ok};
ghost use Rattle.mr_types.specs.declared.row.Commit.{Commit};
ghost use Rattle.mr_types.specs.declared.row.Reply.TheVariants as reply;
ghost use Rattle.mr_types.specs.declared.statement.Statement.{Statement};
ghost use Rattle.mr_types.specs.declared.statement.Statement.TheVariants as statement;
ghost use Rattle.mr_spec.specs.declared.world.Session.{Session};
ghost use Rattle.mr_spec.specs.declared.world.Txn.{Txn};
ghost use Rattle.mr_spec.specs.Promises.{IsOfOne};
ghost use Rattle.mr_spec.specs.Replay.{reopened};
ghost use Rattle.mr_spec.specs.ScriptRun.{world_after};
ghost use Rattle.mr_spec.specs.Step.{step, timed};
ghost use Rattle.mr_spec.specs.World.{World, is_session, turned_to};
ghost use Rattle.mr_laws.specs.Snapshots.{StaysInPlace, AreWithin};

/// A fixed snapshot stays at its number of commits, as long as the transaction goes on.
pub fn snapshots_stay_fixed()
    ensures { (w : World) (s : Result Statement ℕ) (clock n : ℕ) (t u : Txn) → StaysInPlace s → w.here.txn ≡ Some t → t.snapshot ≡ Some n → (world_after w s clock).here.txn ≡ Some u → u.snapshot ≡ Some n }
{}

/// No snapshot is past the commits, at an opening and behind each statement.
pub fn snapshots_stay_within()
    ensures opened { (commits : List Commit) → AreWithin (reopened commits) }
    ensures after { (w : World) (s : Result Statement ℕ) (clock : ℕ) → AreWithin w → AreWithin (world_after w s clock) }
{}

/// Statements but SESSION and DISCONNECT leave the other sessions as they were, done or refused.
pub fn other_sessions_stay()
    ensures { (w : World) (s : Statement) (clock : ℕ) → IsOfOne s → (world_after w (Ok s) clock).others ≡ w.others }
{}

/// SESSION turns to the session of its name among all open ones, and DISCONNECT to `main` among the
/// others. The session that becomes current is as it was left, and those of other names stay.
pub fn sessions_are_parked()
    ensures session { (w : World) (name : List ℕ) (clock n : ℕ) → (step w (Ok (statement.Session name)) clock).reply ≡ reply.Ok n → world_after w (Ok (statement.Session name)) clock ≡ turned_to name (w.here ∷ w.others) (timed w clock) }
    ensures disconnect { (w : World) (clock : ℕ) → world_after w (Ok statement.Disconnect) clock ≡ turned_to (codes "main") w.others (timed w clock) }
    ensures found { (name : List ℕ) (sessions : List Session) (w : World) (x : Session) → find (is_session name) sessions ≡ Some x → (turned_to name sessions w).here ≡ x }
    ensures others { (name : List ℕ) (sessions : List Session) (w : World) (x : Session) → Contains sessions x → is_session name x ≡ false → Contains (turned_to name sessions w).others x }
{}
