//! The next hidden number behind commits.

ghost use Rattle.std.specs.Prelude.{ℕ, List};
ghost use Rattle.mr_types.specs.declared.row.Commit.{Commit};
ghost use Rattle.mr_spec.specs.Lawful.{IsLawful};
ghost use Rattle.mr_spec.specs.Replay.{numbers_after};
ghost use Rattle.mr_views.specs.HiddenNumbers.{AreSinceMade, inserted_numbers, IsOneAbove};

/// Behind lawful commits a table's next hidden number is one above the greatest of the rows that
/// were inserted since the table was last made, and 1 where there are none.
pub fn next_numbers_are_one_above()
    ensures { (name : List ℕ) (commits since : List Commit) → IsLawful commits → AreSinceMade name commits since → IsOneAbove (inserted_numbers name since) (numbers_after (λ n. 1) commits name) }
{}
