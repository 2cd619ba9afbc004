//! Hidden numbers.

ghost use Rattle.std.specs.Prelude.{◌≡◌, ◌≤◌, ◌+◌, max, ℕ, Bool, true, List, Result, Ok};
ghost use Rattle.mr_types.specs.declared.row.Commit.{Commit};
ghost use Rattle.mr_types.specs.declared.statement.Statement.{Statement};
ghost use Rattle.mr_types.specs.declared.statement.Statement.TheVariants as statement;
ghost use Rattle.mr_types.specs.Grammatical.{is_statement};
ghost use Rattle.mr_types.specs.Sizes.{statement_size};
ghost use Rattle.mr_spec.specs.declared.progress.Progress.{Progress};
ghost use Rattle.mr_spec.specs.Progress.{Scene};
ghost use Rattle.mr_spec.specs.Replay.{reopened};
ghost use Rattle.mr_spec.specs.ScriptRun.{world_after};
ghost use Rattle.mr_spec.specs.World.{World};
ghost use Rattle.mr_sound.specs.Sound.{IsSound, IsSpelled, AreNumbered};
ghost use Rattle.mr_sound.specs.Draws.{DrawsFew, RisesBy, draws_by, rows_made, IsNoDrop, ForgetsAt};

/// At an opening each table's next hidden number is above those of its inserts.
pub fn numbers_of_an_opening_are_above()
    ensures { (commits : List Commit) → AreNumbered (reopened commits) }
{}

/// A statement in a sound world leaves it so, also where it is refused: a number that was drawn is
/// never drawn again.
pub fn numbers_stay_above_those_used()
    ensures { (w : World) (s : Result Statement ℕ) (clock : ℕ) → IsSpelled s → IsSound w → AreNumbered w → AreNumbered (world_after w s clock) }
{}

/// A statement raises a table's next hidden number by the rows of its text at most, and it has no
/// more rows than bytes. None falls, and none rises but by what INSERT and REPLACE draw from their own
/// table; but DROP TABLE sets that of its table to 1.
pub fn numbers_rise_by_rows_at_most()
    ensures raised { (w : World) (s : Statement) (clock : ℕ) (name : List ℕ) → (world_after w (Ok s) clock).numbers name ≤ max 1 (w.numbers name + rows_made s) }
    ensures sized { (s : Statement) → is_statement s ≡ true → rows_made s ≤ statement_size s }
    ensures drawn { (w : World) (s : Statement) (clock : ℕ) (name : List ℕ) → IsNoDrop s → RisesBy (draws_by w s name) (w.numbers name) ((world_after w (Ok s) clock).numbers name) }
    ensures dropped { (w : World) (table : List ℕ) (if_exists : Bool) (clock : ℕ) → ForgetsAt table w (world_after w (Ok (statement.DropTable table if_exists)) clock) }
{}

/// A statement on rows draws hidden numbers for the tuples of INSERT and REPLACE alone, in a table
/// without a primary key: one for each whose assignments pass, up to the tuple that is refused.
pub fn draws_are_few()
    ensures { (a : Scene) (g : Progress) → DrawsFew a g }
{}
