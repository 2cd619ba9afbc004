//! What follows from the definitions of a merge, for callers to cite.
ghost use Rattle.std.specs.Prelude.{◌≡◌, ◌≤◌, ◌∷◌, ℕ, Bool, List, filter, length, map};
ghost use Rattle.std.specs.List.{AllByRecursion};
ghost use Rattle.mr_base.specs.declared.stop.Direction.{Direction};
ghost use Rattle.mr_iter.specs.Versions.{Version, version_cmp, IsInOrder, joined, merged};
ghost use Rattle.mr_iter.specs.Snapshots.{at_snapshot};
ghost use Rattle.mr_iter.specs.Newest.{newest, is_of, later, latest};
ghost use Rattle.mr_compact.specs.Kept.{Keeps, kept_versions, becomes, stays_shown, has_key, runs_of};

use mr_iter::{newest_of_merged, view_has_newest};

/// What a merge keeps of versions in order is in order.
pub fn kept_are_in_order()
    ensures { (direction : Direction) (oldest : ℕ) (bottom : Bool) (keeps : Keeps) (versions : List Version) → IsInOrder (version_cmp direction) versions → IsInOrder (version_cmp direction) (kept_versions oldest bottom keeps versions) }
{}

/// From the oldest number on, the newest version of each key stays; one that isn't past the oldest number and that the filter
/// doesn't keep becomes a deletion mark of its sequence number, and a deletion mark is left out at the bottom alone.
pub fn newest_of_kept()
    ensures { (direction : Direction) (oldest number : ℕ) (bottom : Bool) (keeps : Keeps) (key : List ℕ) (versions : List Version) → oldest ≤ number → IsInOrder (version_cmp direction) versions → newest number key (kept_versions oldest bottom keeps versions) ≡ becomes oldest bottom keeps (newest number key versions) }
{}

/// Among other lists, which the merge leaves as they are, a key's newest version is the latest of what becomes of the merged
/// list's and of theirs.
pub fn newest_beside_others()
    ensures { (direction : Direction) (oldest number : ℕ) (bottom : Bool) (keeps : Keeps) (key : List ℕ) (versions : List Version) (others : List (List Version)) → oldest ≤ number → IsInOrder (version_cmp direction) versions → AllByRecursion (IsInOrder (version_cmp direction)) others → newest number key (merged (version_cmp direction) (kept_versions oldest bottom keeps versions ∷ others)) ≡ later (becomes oldest bottom keeps (newest number key versions)) (latest (map (newest number key) others)) }
{
    newest_of_merged();
}

/// From the oldest number on, each view shows of each key what it showed, but for what the filter doesn't keep.
pub fn views_of_kept()
    ensures { (direction : Direction) (oldest number : ℕ) (bottom : Bool) (keeps : Keeps) (key : List ℕ) (versions : List Version) → oldest ≤ number → IsInOrder (version_cmp direction) versions → filter (is_of key) (at_snapshot number (kept_versions oldest bottom keeps versions)) ≡ filter (stays_shown oldest keeps) (filter (is_of key) (at_snapshot number versions)) }
{
    view_has_newest();
}

/// No key is split over two runs.
pub fn keys_in_one_run()
    ensures { (direction : Direction) (key : List ℕ) (versions : List Version) → IsInOrder (version_cmp direction) versions → length (filter (has_key key) (runs_of versions)) ≤ 1 }
{}

/// The runs of versions have all of them, one after another.
pub fn runs_have_all()
    ensures { (versions : List Version) → joined (runs_of versions) ≡ versions }
{}
