//! What a session sees.

ghost use Rattle.std.specs.Prelude.{ℕ, List, Option};
ghost use Rattle.mr_types.specs.declared.row.Commit.{Commit};
ghost use Rattle.mr_spec.specs.declared.world.Txn.{Txn};
ghost use Rattle.mr_spec.specs.World.{World};
ghost use Rattle.mr_views.specs.Views.{TableByChanges, RowsByChanges};

/// A session's table is the committed one at its snapshot, or at the last commit, with its own
/// changes of that table folded in; changes of other tables don't touch it.
pub fn tables_are_folded_from_changes()
    ensures { (name : List ℕ) (commits : List Commit) (txn : Option Txn) → TableByChanges name commits txn }
{}

/// So are the rows that the current session sees.
pub fn rows_are_folded_from_changes()
    ensures { (name : List ℕ) (w : World) → RowsByChanges name w }
{}
