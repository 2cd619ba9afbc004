//! The relation of worlds.

ghost use Rattle.mr_spec.specs.World.{World};
ghost use Rattle.mr_same_worlds.specs.SameWorld.{SameWorld};

/// Each world is the same as itself, and sameness goes back and on.
pub fn sameness_is_an_equivalence()
    ensures itself { (w : World) → SameWorld w w }
    ensures back { (old new : World) → SameWorld old new → SameWorld new old }
    ensures on { (old new last : World) → SameWorld old new → SameWorld new last → SameWorld old last }
{}
