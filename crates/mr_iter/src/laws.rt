//! What follows from the definitions, for callers to cite.

ghost use Rattle.std.specs.Prelude.{◌≡◌, ◌↔◌, ◌≤◌, ◌<◌, ◌∷◌, ℕ, List, Some, IsTrue, false, filter, map, length, drop};
ghost use Rattle.std.specs.List.{AllByRecursion};
ghost use Rattle.mr_base.specs.declared.stop.Direction.{Direction};
ghost use Rattle.mr_iter.specs.Versions.{Version, version_cmp, IsInOrder, place_in, merged, first, is_strict};
ghost use Rattle.mr_iter.specs.Snapshots.{at_snapshot, IsAmong, IsNewest};
ghost use Rattle.mr_iter.specs.Newest.{newest, later, latest, alone, is_of, is_at, shown_one, only_of, NoneLater, IsPlaceOf};

/// Of versions in order, no two of the same key and number, the view at a number has just those that are puts and the
/// newest of their keys not past the number.
pub fn views_have_the_newest()
    ensures { (direction : Direction) (number : ℕ) (versions : List Version) (v : Version) → IsTrue (is_strict direction versions) → (IsAmong v (at_snapshot number versions) ↔ (IsAmong v versions × IsNewest number versions v)) }
{}

/// Of each key a view has the newest version where that is a put, and nothing else.
pub fn view_has_newest()
    ensures { (direction : Direction) (number : ℕ) (key : List ℕ) (versions : List Version) → IsInOrder (version_cmp direction) versions → filter (is_of key) (at_snapshot number versions) ≡ shown_one (newest number key versions) }
{}

/// A view has each key once at the most.
pub fn view_has_keys_once()
    ensures { (direction : Direction) (number : ℕ) (key : List ℕ) (versions : List Version) → IsInOrder (version_cmp direction) versions → length (filter (is_of key) (at_snapshot number versions)) ≤ 1 }
{}

/// A version with a greater number isn't seen.
pub fn views_without_later()
    ensures { (direction : Direction) (number : ℕ) (v : Version) (versions : List Version) → number < v.sequence → at_snapshot number (place_in (version_cmp direction) v versions) ≡ at_snapshot number versions }
{}

/// What is written is found, unless a later version is there; it changes nothing of other keys and at smaller numbers.
pub fn newest_with_version()
    ensures found { (direction : Direction) (number : ℕ) (v : Version) (versions : List Version) → IsInOrder (version_cmp direction) versions → v.sequence ≤ number → NoneLater number v versions → newest number v.key (place_in (version_cmp direction) v versions) ≡ Some v }
    ensures others { (direction : Direction) (number : ℕ) (key : List ℕ) (v : Version) (versions : List Version) → is_at number key v ≡ false → newest number key (place_in (version_cmp direction) v versions) ≡ newest number key versions }
    ensures all { (direction : Direction) (number : ℕ) (key : List ℕ) (v : Version) (versions : List Version) → IsInOrder (version_cmp direction) versions → newest number key (place_in (version_cmp direction) v versions) ≡ later (alone number key v) (newest number key versions) }
{}

/// The newest of many lists in order is the latest of those of each; of equal ones that of the earliest list.
pub fn newest_of_merged()
    ensures { (direction : Direction) (number : ℕ) (key : List ℕ) (lists : List (List Version)) → AllByRecursion (IsInOrder (version_cmp direction)) lists → newest number key (merged (version_cmp direction) lists) ≡ latest (map (newest number key) lists) }
{}

/// A version that is placed into the first of many lists is placed into all.
pub fn place_in_first_child()
    ensures { (direction : Direction) (v : Version) (versions : List Version) (more : List (List Version)) → merged (version_cmp direction) (place_in (version_cmp direction) v versions ∷ more) ≡ place_in (version_cmp direction) v (merged (version_cmp direction) (versions ∷ more)) }
{}

/// Of versions in order, the newest of a key that isn't past a number stands at the place of the key and the number, or nowhere.
pub fn newest_is_at_its_place()
    ensures { (direction : Direction) (number : ℕ) (key : List ℕ) (versions : List Version) (n : ℕ) → IsInOrder (version_cmp direction) versions → IsPlaceOf direction number key versions n → newest number key versions ≡ only_of key (first (drop n versions)) }
{}
