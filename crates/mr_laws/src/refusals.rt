//! What a refused statement leaves of the world.

ghost use Rattle.std.specs.Prelude.{◌≡◌, ℕ, Ok, Err};
ghost use Rattle.mr_types.specs.declared.row.Reply.TheVariants as reply;
ghost use Rattle.mr_types.specs.declared.statement.Statement.{Statement};
ghost use Rattle.mr_spec.specs.Outcome.{refused};
ghost use Rattle.mr_spec.specs.Step.{step, begun, timed};
ghost use Rattle.mr_spec.specs.World.{World};
ghost use Rattle.mr_laws.specs.Refusals.{LeftBy};

/// A refused statement leaves the world in which it was judged, at its moment and with an open
/// transaction committed where it commits one first, but for what its kind, its table and its code
/// say: a statement on rows has used its table and drawn its hidden numbers, 1213 has ended the
/// transaction, and 1062 behind FINISH INDEX has ended the building index.
pub fn refusals_leave_by_their_codes()
    ensures { (w : World) (s : Statement) (clock code : ℕ) → (step w (Ok s) clock).reply ≡ reply.Refused code → LeftBy (begun s (timed w clock)) s code (step w (Ok s) clock).world }
{}

/// A text that is no statement commits nothing, and moves the moment alone.
pub fn unread_texts_move_the_moment_alone()
    ensures { (w : World) (clock code : ℕ) → step w (Err code) clock ≡ refused (timed w clock) code }
{}
