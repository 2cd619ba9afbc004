//! What follows from the format for look-ups, for callers to cite.
ghost use Rattle.mr_base.specs.Disk.{Image};
ghost use Rattle.mr_run_open.specs.Runs.{RunState, HasIndex};
ghost use Rattle.mr_run_get.specs.Get.{IsGapless};

/// The blocks of a run lie one after the other, where a file by its structure has the run's index.
pub fn runs_lie_without_gaps()
    ensures { (r : RunState) (image : Image) → HasIndex r image → IsGapless r }
{}
