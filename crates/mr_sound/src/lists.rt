//! Elements of lists.

ghost use Rattle.std.specs.Prelude.{ℕ, List, Contains, Result, ◌↔◌};
ghost use Rattle.mr_types.specs.declared.row.Change.{Change};
ghost use Rattle.mr_types.specs.declared.row.Commit.{Commit};
ghost use Rattle.mr_types.specs.declared.statement.Statement.{Statement};
ghost use Rattle.mr_spec.specs.declared.world.Session.{Session};
ghost use Rattle.mr_sound.specs.Sound.{IsIn};

/// What is in a list by recursion is an element of it, and the other way round.
pub fn elements_are_contained()
    ensures changes { (c : Change) (changes : List Change) → IsIn c changes ↔ Contains changes c }
    ensures commits { (c : Commit) (commits : List Commit) → IsIn c commits ↔ Contains commits c }
    ensures sessions { (s : Session) (sessions : List Session) → IsIn s sessions ↔ Contains sessions s }
    ensures statements { (s : Result Statement ℕ) (statements : List (Result Statement ℕ)) → IsIn s statements ↔ Contains statements s }
{}
