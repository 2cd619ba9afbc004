//! What the same worlds answer.

ghost use Rattle.std.specs.Prelude.{◌≡◌, ℕ, List, Result, Ok, Err};
ghost use Rattle.std.specs.List.{AllByRecursion};
ghost use Rattle.mr_types.specs.declared.statement.Statement.{Statement};
ghost use Rattle.mr_spec.specs.Promises.{IsOfOne};
ghost use Rattle.mr_spec.specs.ScriptRun.{trace};
ghost use Rattle.mr_spec.specs.Step.{step};
ghost use Rattle.mr_spec.specs.World.{World};
ghost use Rattle.mr_same_worlds.specs.SameWorld.{SameWorld, SameOutcome, IsTidy, all_read};

/// A statement of one session gives the same reply in the same worlds, and the same world again.
pub fn same_worlds_answer_alike()
    ensures { (old new : World) (s : Statement) (clock : ℕ) → IsTidy old → IsTidy new → SameWorld old new → IsOfOne s → SameOutcome (step old (Ok s) clock) (step new (Ok s) clock) }
{}

/// So does a text that is no statement.
pub fn unread_texts_answer_alike()
    ensures { (old new : World) (code clock : ℕ) → SameWorld old new → SameOutcome (step old (Err code) clock) (step new (Err code) clock) }
{}

/// Any number of such statements do the same in the same worlds: each reply and each commit.
pub fn same_worlds_run_alike()
    ensures { (old new : World) (ss : List Statement) (now : ℕ → ℕ) → IsTidy old → IsTidy new → SameWorld old new → AllByRecursion IsOfOne ss → trace new (all_read ss) now ≡ trace old (all_read ss) now }
{}
