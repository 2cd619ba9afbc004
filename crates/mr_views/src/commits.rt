//! One commit more.

ghost use Rattle.std.specs.Prelude.{List};
ghost use Rattle.mr_types.specs.declared.row.Commit.{Commit};
ghost use Rattle.mr_views.specs.Views.{FoldsIn};

/// What commits make of the tables, of the next hidden numbers and of the moment is folded on from
/// commit to commit.
pub fn one_commit_more_folds_in()
    ensures { (commits : List Commit) (c : Commit) → FoldsIn commits c }
{}
