//! What follows from the definitions, for callers to cite.

ghost use Rattle.std.specs.Prelude.{◌≡◌, ◌≤◌, ℕ, List};
ghost use Rattle.std.specs.List.{AllByRecursion};
ghost use Rattle.mr_base.specs.declared.stop.Direction.TheVariants.{Forward};
ghost use Rattle.mr_iter.specs.Versions.{Version, version_cmp, IsInOrder};
ghost use Rattle.mr_iter.specs.Snapshots.{at_snapshot};
ghost use Rattle.mr_dict_entry.specs.declared.entry.DictEntry.{DictEntry};
ghost use Rattle.mr_dict.specs.Loading.{newest_puts};
ghost use Rattle.mr_dict.specs.Promises.{PutIsFound, RemovedIsGone};

/// An entry that was put in is found under its key; what is found under any other key stays.
pub fn put_is_found()
    ensures { (e : DictEntry) (es : List DictEntry) → PutIsFound e es }
{}

/// Nothing is found under the key of an entry that was taken out; what is found under any other key
/// stays.
pub fn removed_is_gone()
    ensures { (at : ℕ) (es : List DictEntry) → RemovedIsGone at es }
{}

/// The newest puts are the view at a number that no version is past; and a view's newest puts are all
/// that it has.
pub fn newest_puts_are_views()
    ensures of_versions { (number : ℕ) (versions : List Version) → AllByRecursion (λ (v : Version). v.sequence ≤ number) versions → newest_puts versions ≡ at_snapshot number versions }
    ensures of_views { (number : ℕ) (versions : List Version) → IsInOrder (version_cmp Forward) versions → newest_puts (at_snapshot number versions) ≡ at_snapshot number versions }
{}
