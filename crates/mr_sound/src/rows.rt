//! What the tables of sound worlds hold.

ghost use Rattle.std.specs.Prelude.{◌≡◌, ℕ, true, List, ◌∷◌, Some};
ghost use Rattle.mr_types.specs.declared.row.Commit.{Commit};
ghost use Rattle.mr_types.specs.declared.row.Row.{Row};
ghost use Rattle.mr_spec.specs.declared.world.Session.{Session};
ghost use Rattle.mr_spec.specs.declared.world.Table.{Table};
ghost use Rattle.mr_spec.specs.Database.{table_of, replay};
ghost use Rattle.mr_spec.specs.Lawful.{IsLawful, is_row_of};
ghost use Rattle.mr_spec.specs.World.{World, view_of};
ghost use Rattle.mr_sound.specs.Sound.{IsIn, IsSound};

/// Each row in a table that lawful commits make is a row of it: a value that fits for each column,
/// and a hidden number and a stamp as the definition has them. So is each row that an open session of
/// a sound world sees, expired ones and those of its own changes among them.
pub fn rows_are_of_their_tables()
    ensures lawful { (commits : List Commit) (name : List ℕ) (t : Table) (r : Row) → IsLawful commits → table_of name (replay commits) ≡ Some t → IsIn r t.rows → is_row_of t.def r ≡ true }
    ensures seen { (w : World) (s : Session) (name : List ℕ) (t : Table) (r : Row) → IsSound w → IsIn s (w.here ∷ w.others) → table_of name (view_of w.commits s.txn) ≡ Some t → IsIn r t.rows → is_row_of t.def r ≡ true }
{}
