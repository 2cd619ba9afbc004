//! What follows for the runs of a family, for callers to cite.
ghost use Rattle.std.specs.Prelude.{◌≡◌, ◌≤◌, ℕ, List, length};
ghost use Rattle.mr_base.specs.Disk.{Image};
ghost use Rattle.mr_iter.specs.Cursors.{SameFiles};
ghost use Rattle.mr_block_cache.specs.Cache.{CachedBlock, IsWarm};
ghost use Rattle.mr_levels.specs.Levels.{LevelsState, runs, files, run_lists, AreWhole, HasOffence};
ghost use Rattle.mr_levels.specs.Looks.{looked, key_spans, Brings, AreSorted, AreGapless};

/// What the runs mean is what their files say.
pub fn levels_are_their_files()
    ensures lists { (s : LevelsState) (i j : Image) → SameFiles (files s) i j → run_lists (runs s) i ≡ run_lists (runs s) j }
    ensures whole { (s : LevelsState) (i j : Image) → SameFiles (files s) i j → AreWhole s i → AreWhole s j }
    ensures offences { (s : LevelsState) (i j : Image) (file at : ℕ) → SameFiles (files s) i j → HasOffence s i file at → HasOffence s j file at }
{}

/// Where the runs are whole, the first keys of their blocks are in order, their blocks lie one after the other, and none has an offence.
pub fn whole_levels_are_sorted()
    ensures sorted { (s : LevelsState) (image : Image) → AreWhole s image → AreSorted (runs s) }
    ensures looked { (s : LevelsState) (image : Image) (key : List ℕ) → AreWhole s image → AreSorted (looked key s) }
    ensures gapless { (s : LevelsState) (image : Image) → AreWhole s image → AreGapless (runs s) }
    ensures sound { (s : LevelsState) (image : Image) (file at : ℕ) → AreWhole s image → HasOffence s image file at → ⊥ }
{}

/// A look-up leaves the cache warm for its key, where the blocks in which the key can stand are at most 1,024.
pub fn look_ups_leave_warm()
    ensures { (key : List ℕ) (s : LevelsState) (old new : List CachedBlock) → AreSorted (looked key s) → Brings key (looked key s) old new → length (key_spans key (looked key s)) ≤ 1024 → IsWarm (key_spans key (looked key s)) new }
{}
