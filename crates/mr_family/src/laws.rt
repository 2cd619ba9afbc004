//! What follows for a family, for callers to cite.
ghost use Rattle.std.specs.Prelude.{◌≡◌, ◌≤◌, ℕ, List, filter, length};
ghost use Rattle.mr_base.specs.Disk.{Image};
ghost use Rattle.mr_iter.specs.Versions.{version_cmp, IsInOrder};
ghost use Rattle.mr_iter.specs.Cursors.{SameFiles};
ghost use Rattle.mr_iter.specs.Snapshots.{at_snapshot};
ghost use Rattle.mr_iter.specs.Newest.{newest, shown_one, is_of};
ghost use Rattle.mr_family.specs.Family.{FamilyState, direction, files, versions, IsWhole, IsTrueTo, IsWarmFor};
ghost use Rattle.mr_levels.specs.Looks.{looked, key_spans, Brings, AreSorted, HasKeyOffence};

use mr_iter::view_has_newest;

/// What a family means is what its own files say.
pub fn families_are_their_files()
    ensures versions { (f : FamilyState) (i j : Image) → SameFiles (files f) i j → versions f i ≡ versions f j }
    ensures whole { (f : FamilyState) (i j : Image) → SameFiles (files f) i j → IsWhole f i → IsWhole f j }
    ensures held { (f : FamilyState) (i j : Image) → SameFiles (files f) i j → IsTrueTo i f → IsTrueTo j f }
{}

/// Its versions are in order, whatever its files have.
pub fn families_are_in_order()
    ensures { (f : FamilyState) (image : Image) → IsInOrder (version_cmp (direction f)) (versions f image) }
{}

/// A cursor at a number shows of a key what a look-up finds, where that is a put.
pub fn look_ups_are_views()
    ensures { (f : FamilyState) (image : Image) (number : ℕ) (key : List ℕ) → filter (is_of key) (at_snapshot number (versions f image)) ≡ shown_one (newest number key (versions f image)) }
{
    view_has_newest();
}

/// No look-up meets damage where the family is whole.
pub fn whole_families_have_no_offence()
    ensures { (f : FamilyState) (image : Image) (key : List ℕ) (file at : ℕ) → IsWhole f image → HasKeyOffence key (looked key f.levels) image file at → ⊥ }
{}

/// A look-up that ends well leaves the family warm for its key, where the blocks in which the key can stand are at most 1,024.
pub fn look_ups_leave_families_warm()
    ensures { (key : List ℕ) (old new : FamilyState) → AreSorted (looked key old.levels) → new.levels ≡ old.levels → Brings key (looked key old.levels) old.cached new.cached → length (key_spans key (looked key old.levels)) ≤ 1024 → IsWarmFor key new }
{}
