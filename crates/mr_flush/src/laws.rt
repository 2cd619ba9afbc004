//! What follows for a memtable and runs that were flushed, for callers to cite.
ghost use Rattle.std.specs.Prelude.{◌≡◌, ℕ, List};
ghost use Rattle.mr_base.specs.Disk.{State, Tells, seen};
ghost use Rattle.mr_iter.specs.RunOuts.{KeepsOthers};
ghost use Rattle.mr_iter.specs.declared.run.RunInfo.{RunInfo};
ghost use Rattle.mr_memtable.specs.Tables.{MemState};
ghost use Rattle.mr_block_cache.specs.Cache.{CachedBlock, AgreesWith};
ghost use Rattle.mr_compact.specs.Merges.{AreBefore};
ghost use Rattle.mr_levels.specs.Levels.{LevelsState, runs, files, AreWhole};
ghost use Rattle.mr_levels.specs.Looks.{AgreeWith};
ghost use Rattle.mr_flush.specs.Flushed.{versions_of, IsFlushed};

/// Where the run's file has a greater number than all runs', a flush keeps the list of versions as it is, whole runs stay whole, and a
/// cache that holds no block of that file stays true.
pub fn flushes_keep_families()
    ensures versions { (file : ℕ) (info : RunInfo) (s t : State) (m n : MemState) (l k : LevelsState) → IsFlushed file info s t m n l k → KeepsOthers file s t → Tells s → AreBefore file (files l) → versions_of n k (seen t) ≡ versions_of m l (seen s) }
    ensures whole { (file : ℕ) (info : RunInfo) (s t : State) (m n : MemState) (l k : LevelsState) → IsFlushed file info s t m n l k → KeepsOthers file s t → Tells s → AreBefore file (files l) → AreWhole l (seen s) → AreWhole k (seen t) }
    ensures held { (file : ℕ) (info : RunInfo) (s t : State) (m n : MemState) (l k : LevelsState) (cached : List CachedBlock) → IsFlushed file info s t m n l k → KeepsOthers file s t → Tells s → AreBefore file (files l) → ((bytes : List ℕ) → AgreesWith file bytes cached) → AgreeWith (seen s) cached (runs l) → AgreeWith (seen t) cached (runs k) }
{}
