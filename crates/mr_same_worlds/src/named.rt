//! Worlds that are the same by their sessions' names too: SESSION and DISCONNECT do the same there.

ghost use Rattle.std.specs.Prelude.{◌≡◌, ℕ, List, Result};
ghost use Rattle.mr_types.specs.declared.statement.Statement.{Statement};
ghost use Rattle.mr_spec.specs.ScriptRun.{run_of};
ghost use Rattle.mr_spec.specs.Step.{step};
ghost use Rattle.mr_spec.specs.World.{World};
ghost use Rattle.mr_same_worlds.specs.Named.{SameNamedWorld, SameNamedOutcome};
ghost use Rattle.mr_same_worlds.specs.SameWorld.{IsTidy};

/// Each statement, and each text that is none, gives the same reply and the same world again.
pub fn named_worlds_answer_alike()
    ensures { (old new : World) (s : Result Statement ℕ) (clock : ℕ) → IsTidy old → IsTidy new → SameNamedWorld old new → SameNamedOutcome (step old s clock) (step new s clock) }
{}

/// A script does the same in them: each reply and each commit.
pub fn scripts_run_alike()
    ensures { (old new : World) (script : List ℕ) (now : ℕ → ℕ) → IsTidy old → IsTidy new → SameNamedWorld old new → run_of script now new ≡ run_of script now old }
{}
