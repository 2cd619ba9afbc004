//! What follows for families that are filled, for callers to cite.
ghost use Rattle.std.specs.Prelude.{◌≡◌, ℕ, List};
ghost use Rattle.mr_base.specs.Disk.{Image};
ghost use Rattle.mr_manifest.specs.declared.live.LiveRun.{LiveRun};
ghost use Rattle.mr_engine_log.specs.declared.batched.Batched.{Batched};
ghost use Rattle.mr_family.specs.Family.{IsTrueTo};
ghost use Rattle.mr_families.specs.declared.numbered.Numbered.{Numbered};
ghost use Rattle.mr_families.specs.Known.{family_at};
ghost use Rattle.mr_stored.specs.Lists.{AreNamed};
ghost use Rattle.mr_store_memory.specs.Held.{Held};
ghost use Rattle.mr_store_filling.specs.Filled.{HaveOpened, HaveAdded, AreEmpty, AreDirected};

/// Empty families with the directions of their records, into which all live runs are opened and then all batches are added, have what the
/// files say; and what is held of them is what the files have.
pub fn filled_families_are_held()
    ensures held { (image : Image) (runs : List LiveRun) (batches : List Batched) (first opened last : List Numbered) → AreEmpty first → AreNamed image runs batches → AreDirected image runs batches first → HaveOpened image runs first opened → HaveAdded batches opened last → Held last image runs batches }
    ensures cached { (image : Image) (runs : List LiveRun) (batches : List Batched) (first opened last : List Numbered) → AreEmpty first → HaveOpened image runs first opened → HaveAdded batches opened last → (f : ℕ) → IsTrueTo image (family_at last f) }
{}
