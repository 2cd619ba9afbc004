//! What follows for a store, for callers to cite.
ghost use Rattle.std.specs.Prelude.{◌≡◌, ◌<◌, ◌^◌, ℕ, List};
ghost use Rattle.mr_base.specs.Disk.{Image};
ghost use Rattle.mr_wal.specs.declared.operation.Operation.{Operation};
ghost use Rattle.mr_engine_log.specs.Logged.{after_verdict};
ghost use Rattle.mr_stored.specs.Said.{Said};
ghost use Rattle.mr_stored.specs.Begun.{Says};
ghost use Rattle.mr_stored.specs.Lists.{versions_of};
ghost use Rattle.mr_kv.specs.Store.{KvState, Holds, versions_in};
ghost use Rattle.mr_kv.specs.Batch.{HasBatch, HasVersions};

use mr_iter::place_in_first_child;

/// What the batch adds to each family, in its direction; nothing else of any family's versions changes.
pub fn batches_are_in_their_families()
    ensures { (sequence : ℕ) (batch : List Operation) (old new : KvState) (image : Image) → HasBatch sequence batch old.families new.families → HasVersions sequence batch old new image }
{}

/// What an image says is one thing, and a store that it holds has the versions of each family that its files say, with the verdict that no
/// record has yet.
pub fn what_files_say_is_one()
    ensures one { (image : Image) (s t : Said) → Says image s → Says image t → s ≡ t }
    ensures versions { (kv : KvState) (image : Image) (f : ℕ) → f < 2 ^ 32 → (holds : Holds kv image) → versions_in kv image f ≡ versions_of image kv.manifest.live.runs (after_verdict kv.log.verdict holds.logged).batches f }
{
    place_in_first_child();
}
