//! Definitions, by the number of the commit that last made or changed them.

ghost use Rattle.std.specs.Prelude.{◌≡◌, ◌≤◌, ◌+◌, ℕ, nat_lt, if◌then◌else◌, List, [], ◌∷◌, ◌++◌, length, drop};
ghost use Rattle.std.specs.List.{list_any};
ghost use Rattle.mr_types.specs.declared.row.Commit.{Commit};
ghost use Rattle.mr_spec.specs.Database.{defines};
ghost use Rattle.mr_spec.specs.World.{World, is_stale, seen_by};
ghost use Rattle.mr_steps.specs.Defining.{last_defined};

/// A definition was made or changed behind the first n commits exactly where n is below the number of
/// the commit that last did so. A commit more sets this number or leaves it.
pub fn stale_is_defined_later()
    ensures later { (name : List ℕ) (n : ℕ) (commits : List Commit) → list_any (defines name) (drop n commits) ≡ nat_lt n (last_defined name commits) }
    ensures stale { (name : List ℕ) (w : World) → is_stale name w ≡ nat_lt (seen_by w.here.txn (length w.commits)) (last_defined name w.commits) }
    ensures none { (name : List ℕ) → last_defined name [] ≡ 0 }
    ensures more { (name : List ℕ) (commits : List Commit) (c : Commit) → last_defined name (commits ++ c ∷ []) ≡ (if defines name c then length commits + 1 else last_defined name commits) }
    ensures most { (name : List ℕ) (commits : List Commit) → last_defined name commits ≤ length commits }
{}
