//! What follows for a family of which some runs are merged, for callers to cite.
ghost use Rattle.std.specs.Prelude.{◌≡◌, ◌≤◌, ◌∷◌, ◌++◌, ℕ, Bool, List, filter};
ghost use Rattle.std.specs.List.{AllByRecursion};
ghost use Rattle.mr_base.specs.declared.stop.Direction.{Direction};
ghost use Rattle.mr_iter.specs.Versions.{Version, version_cmp, IsInOrder, merged};
ghost use Rattle.mr_iter.specs.Snapshots.{at_snapshot};
ghost use Rattle.mr_iter.specs.Newest.{newest, later, is_of};
ghost use Rattle.mr_compact.specs.Kept.{Keeps, kept_versions};
ghost use Rattle.mr_merge_laws.specs.Around.{Parts, AllDiffer, lists_of, taken, left_out, newest_in_parts, newest_of, LieAround, after_merge, first_one, is_touched, but_for};

use mr_compact::{kept_are_in_order, newest_of_kept, views_of_kept};
use mr_iter::{newest_of_merged, view_has_newest};

/// From the oldest number on, a key's newest version is what it was where a newer list has it, and where no merged list has any; else it
/// becomes what the merge makes of it.
pub fn newest_after_a_merge()
    ensures { (direction : Direction) (oldest number : ℕ) (bottom : Bool) (keeps : Keeps) (key : List ℕ) (newer picked older : List (List Version)) → oldest ≤ number → AllByRecursion (IsInOrder (version_cmp direction)) newer → AllByRecursion (IsInOrder (version_cmp direction)) picked → AllByRecursion (IsInOrder (version_cmp direction)) older → LieAround number bottom key newer picked older → newest number key (merged (version_cmp direction) (newer ++ kept_versions oldest bottom keeps (merged (version_cmp direction) picked) ∷ older)) ≡ after_merge oldest bottom keeps (newest_of number key newer) (newest_of number key picked) (newest_of number key older) }
{
    newest_of_merged();
    newest_of_kept();
    kept_are_in_order();
}

/// From the oldest number on, each view shows of a key what it showed before, but for what the filter doesn't keep where a merged list
/// has its newest version.
pub fn views_after_a_merge()
    ensures { (direction : Direction) (oldest number : ℕ) (bottom : Bool) (keeps : Keeps) (key : List ℕ) (newer picked older : List (List Version)) → oldest ≤ number → AllByRecursion (IsInOrder (version_cmp direction)) newer → AllByRecursion (IsInOrder (version_cmp direction)) picked → AllByRecursion (IsInOrder (version_cmp direction)) older → LieAround number bottom key newer picked older → filter (is_of key) (at_snapshot number (merged (version_cmp direction) (newer ++ kept_versions oldest bottom keeps (merged (version_cmp direction) picked) ∷ older))) ≡ but_for oldest keeps (is_touched (newest_of number key newer) (newest_of number key picked)) (filter (is_of key) (at_snapshot number (merged (version_cmp direction) (newer ++ (picked ++ older))))) }
{
    newest_after_a_merge();
    newest_of_merged();
    newest_of_kept();
    kept_are_in_order();
    view_has_newest();
    views_of_kept();
}

/// Where no two parts have the same number of a key, the key's newest version is the later of that of some of the parts and that of the
/// others, in whichever order they stand.
pub fn newest_in_parts_of_two_kinds()
    ensures { (number : ℕ) (key : List ℕ) (p : ℕ → Bool) (parts : Parts) → AllDiffer (newest_in_parts number key parts) → newest_of number key (lists_of parts) ≡ later (newest_of number key (lists_of (taken p parts))) (newest_of number key (lists_of (left_out p parts))) }
{}
