//! What follows where a run is added, for callers to cite.
ghost use Rattle.std.specs.Prelude.{◌≡◌, ◌≢◌, ℕ, List};
ghost use Rattle.std.specs.List.{AllByRecursion};
ghost use Rattle.mr_base.specs.Disk.{Image};
ghost use Rattle.mr_run_open.specs.Runs.{RunState};
ghost use Rattle.mr_run_get.specs.Get.{IsGapless};
ghost use Rattle.mr_block_cache.specs.Cache.{CachedBlock, AgreesWith};
ghost use Rattle.mr_levels.specs.Levels.{LevelsState, runs, with_run, AreKept, IsLive, AreLive, AreWhole};
ghost use Rattle.mr_levels.specs.Looks.{AgreeWith, AreGapless};
ghost use Rattle.mr_level_laws.specs.Beside.{StandsBeside};

/// Whole runs with one more are whole, where that one is a run of the direction and overlaps none of its level.
pub fn whole_levels_stay_whole()
    ensures live { (s : LevelsState) (image : Image) (level : ℕ) (r : RunState) → AreLive image (runs s) → IsLive image r → AreLive image (runs (with_run level r s)) }
    ensures whole { (s : LevelsState) (image : Image) (level : ℕ) (r : RunState) → AreKept s.direction s.newest s.deeper → AreWhole s image → r.direction ≡ s.direction → IsLive image r → StandsBeside level r s → AreWhole (with_run level r s) image }
{}

/// Runs without gaps stay so with one more.
pub fn runs_without_gaps_stay_so()
    ensures { (s : LevelsState) (level : ℕ) (r : RunState) → AreGapless (runs s) → IsGapless r → AreGapless (runs (with_run level r s)) }
{}

/// A cache that is true to the files of all runs is so with one more, where it is true to that one's file; and another file is still none
/// of theirs.
pub fn caches_stay_true_to_runs()
    ensures held { (s : LevelsState) (image : Image) (cached : List CachedBlock) (level : ℕ) (r : RunState) → AgreeWith image cached (runs s) → AgreesWith r.file (image r.file) cached → AgreeWith image cached (runs (with_run level r s)) }
    ensures others { (s : LevelsState) (file level : ℕ) (r : RunState) → AllByRecursion (λ (t : RunState). file ≢ t.file) (runs s) → file ≢ r.file → AllByRecursion (λ (t : RunState). file ≢ t.file) (runs (with_run level r s)) }
{}
