//! What follows for families, for callers to cite.
ghost use Rattle.std.specs.Prelude.{◌≡◌, ◌≤◌, ◌<◌, ◌+◌, ◌==◌, ℕ, List, Some, true, false, filter, length};
ghost use Rattle.std.specs.List.{AllByRecursion};
ghost use Rattle.mr_base.specs.Disk.{Image};
ghost use Rattle.mr_base.specs.declared.stop.Direction.{Direction};
ghost use Rattle.mr_wal.specs.declared.operation.Operation.{Operation};
ghost use Rattle.mr_wal.specs.Distinct.{HaveDistinctKeys};
ghost use Rattle.mr_iter.specs.Versions.{Version, version_cmp, IsInOrder};
ghost use Rattle.mr_iter.specs.Children.{AnyOf};
ghost use Rattle.mr_iter.specs.Cursors.{SameFiles};
ghost use Rattle.mr_iter.specs.Snapshots.{at_snapshot};
ghost use Rattle.mr_iter.specs.Newest.{newest, shown_one, is_of};
ghost use Rattle.mr_levels.specs.Looks.{looked, HasKeyOffence};
ghost use Rattle.mr_family.specs.Family.{FamilyState, direction, files, versions, IsWhole, IsTrueTo, reads_of};
ghost use Rattle.mr_families.specs.declared.numbered.Numbered.{Numbered};
ghost use Rattle.mr_families.specs.Known.{family_at};
ghost use Rattle.mr_families.specs.Batches.{version_of, with_operations, AreAwaited, Added, AreUpTo, NoneOn};

use mr_family::{families_are_in_order, families_are_their_files, look_ups_are_views};
use mr_iter::{newest_with_version, views_without_later};

/// What a family of a number means is what its own files say, in order.
pub fn families_by_number()
    ensures versions { (ns : List Numbered) (f : ℕ) (i j : Image) → SameFiles (files (family_at ns f)) i j → versions (family_at ns f) i ≡ versions (family_at ns f) j }
    ensures whole { (ns : List Numbered) (f : ℕ) (i j : Image) → SameFiles (files (family_at ns f)) i j → IsWhole (family_at ns f) i → IsWhole (family_at ns f) j }
    ensures held { (ns : List Numbered) (f : ℕ) (i j : Image) → SameFiles (files (family_at ns f)) i j → IsTrueTo i (family_at ns f) → IsTrueTo j (family_at ns f) }
    ensures ordered { (ns : List Numbered) (f : ℕ) (image : Image) → IsInOrder (version_cmp (direction (family_at ns f))) (versions (family_at ns f) image) }
    ensures viewed { (ns : List Numbered) (f : ℕ) (image : Image) (number : ℕ) (key : List ℕ) → filter (is_of key) (at_snapshot number (versions (family_at ns f) image)) ≡ shown_one (newest number key (versions (family_at ns f) image)) }
{
    families_are_their_files();
    families_are_in_order();
    look_ups_are_views();
}

/// The offences that a look-up may meet are what the family's own files say.
pub fn offences_are_their_files()
    ensures { (f : FamilyState) (key : List ℕ) (i j : Image) (file at : ℕ) → SameFiles (files f) i j → HasKeyOffence key (looked key f.levels) i file at → HasKeyOffence key (looked key f.levels) j file at }
{}

/// A look-up reads at most as often as there are newest runs, and once for each of the four levels behind them.
pub fn few_reads()
    ensures { (key : List ℕ) (f : FamilyState) → length f.levels.deeper ≡ 4 → reads_of key f ≤ length f.levels.newest + 4 }
{}

/// What a batch does to the versions of a family, in order, none of which has a greater number. The newest version of a key that it
/// names is what it says of the key; other keys have what they had, and so has each key at a smaller number.
pub fn batches_are_newest()
    ensures named { (d : Direction) (family sequence number : ℕ) (os : List Operation) (o : Operation) (vs : List Version) → IsInOrder (version_cmp d) vs → AreUpTo sequence vs → HaveDistinctKeys os → AnyOf (λ p. p ≡ o) os → o.family ≡ family → sequence ≤ number → newest number o.key (with_operations d family sequence os vs) ≡ Some (version_of sequence o) }
    ensures others { (d : Direction) (family sequence number : ℕ) (key : List ℕ) (os : List Operation) (vs : List Version) → NoneOn family key os → newest number key (with_operations d family sequence os vs) ≡ newest number key vs }
    ensures earlier { (d : Direction) (family sequence number : ℕ) (key : List ℕ) (os : List Operation) (vs : List Version) → number < sequence → newest number key (with_operations d family sequence os vs) ≡ newest number key vs }
    ensures views { (d : Direction) (family sequence number : ℕ) (os : List Operation) (vs : List Version) → number < sequence → at_snapshot number (with_operations d family sequence os vs) ≡ at_snapshot number vs }
    ensures up_to { (d : Direction) (family sequence : ℕ) (os : List Operation) (vs : List Version) → AreUpTo sequence vs → AreUpTo sequence (with_operations d family sequence os vs) }
    ensures ordered { (d : Direction) (family sequence : ℕ) (os : List Operation) (vs : List Version) → IsInOrder (version_cmp d) vs → IsInOrder (version_cmp d) (with_operations d family sequence os vs) }
{
    newest_with_version();
    views_without_later();
}

/// After a batch whose keys are distinct was added under a number that no version passes, the newest version of a key that it names is
/// what it says of it, and each other key of each family has what it had.
pub fn added_are_newest()
    ensures named { (sequence number : ℕ) (os : List Operation) (o : Operation) (old new : List Numbered) (image : Image) → Added sequence os old new → AreUpTo sequence (versions (family_at old o.family) image) → HaveDistinctKeys os → AnyOf (λ p. p ≡ o) os → sequence ≤ number → newest number o.key (versions (family_at new o.family) image) ≡ Some (version_of sequence o) }
    ensures others { (sequence number f : ℕ) (key : List ℕ) (os : List Operation) (old new : List Numbered) (image : Image) → Added sequence os old new → NoneOn f key os → newest number key (versions (family_at new f) image) ≡ newest number key (versions (family_at old f) image) }
    ensures up_to { (sequence f : ℕ) (os : List Operation) (old new : List Numbered) (image : Image) → Added sequence os old new → AreUpTo sequence (versions (family_at old f) image) → AreUpTo sequence (versions (family_at new f) image) }
{
    batches_are_newest();
    families_are_in_order();
}

/// A batch that was added isn't seen at a smaller number.
pub fn added_stay_in_views()
    ensures newest { (sequence number f : ℕ) (key : List ℕ) (os : List Operation) (old new : List Numbered) (image : Image) → Added sequence os old new → number < sequence → newest number key (versions (family_at new f) image) ≡ newest number key (versions (family_at old f) image) }
    ensures views { (sequence number f : ℕ) (os : List Operation) (old new : List Numbered) (image : Image) → Added sequence os old new → number < sequence → at_snapshot number (versions (family_at new f) image) ≡ at_snapshot number (versions (family_at old f) image) }
{
    batches_are_newest();
}
