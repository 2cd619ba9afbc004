//! The weight of a transaction's changes, as the transaction sees its tables.

ghost use Rattle.std.specs.Prelude.{◌≡◌, ◌≤◌, ℕ, false, List, ◌∷◌};
ghost use Rattle.mr_spec.specs.declared.world.Session.{Session};
ghost use Rattle.mr_spec.specs.Database.{replay};
ghost use Rattle.mr_spec.specs.Weight.{total_weight};
ghost use Rattle.mr_spec.specs.World.{World, view_of, changes_by, is_stale};
ghost use Rattle.mr_sound.specs.Sound.{IsIn, IsSound};
ghost use Rattle.mr_steps.specs.Views.{SameDefinition};

/// A session's changes weigh the same by the definitions that it sees and by those of all commits, so
/// at most 64 MiB by either. For a table whose definition no later commit made or changed is the same
/// in both.
pub fn changes_are_light_in_their_view()
    ensures same { (w : World) (name : List ℕ) → is_stale name w ≡ false → SameDefinition name (view_of w.commits w.here.txn) (replay w.commits) }
    ensures weight { (w : World) (s : Session) → IsSound w → IsIn s (w.here ∷ w.others) → total_weight (view_of w.commits s.txn) (changes_by s.txn) ≡ total_weight (replay w.commits) (changes_by s.txn) }
    ensures light { (w : World) (s : Session) → IsSound w → IsIn s (w.here ∷ w.others) → total_weight (view_of w.commits s.txn) (changes_by s.txn) ≤ 67108864 }
{}
