//! Tables that aren't there leave nothing behind.

ghost use Rattle.std.specs.Prelude.{ℕ, List, Result};
ghost use Rattle.mr_types.specs.declared.row.Commit.{Commit};
ghost use Rattle.mr_types.specs.declared.statement.Statement.{Statement};
ghost use Rattle.mr_spec.specs.Lawful.{IsLawful};
ghost use Rattle.mr_spec.specs.Replay.{reopened};
ghost use Rattle.mr_spec.specs.ScriptRun.{world_after};
ghost use Rattle.mr_spec.specs.World.{World};
ghost use Rattle.mr_same_worlds.specs.SameWorld.{IsTidy};

/// The world of an opening is tidy.
pub fn openings_are_tidy()
    ensures { (commits : List Commit) → IsLawful commits → IsTidy (reopened commits) }
{}

/// A statement, done or refused, and a text that is none leave a tidy world tidy.
pub fn statements_keep_worlds_tidy()
    ensures { (w : World) (s : Result Statement ℕ) (clock : ℕ) → IsTidy w → IsTidy (world_after w s clock) }
{}
