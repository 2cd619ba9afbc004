//! What follows from the format, for callers to cite.

ghost use Rattle.std.specs.Prelude.{◌≡◌, ℕ, List, length};
ghost use Rattle.mr_base.specs.declared.stop.Direction.{Direction};
ghost use Rattle.mr_iter.specs.Versions.{Version, version_cmp, IsInOrder};
ghost use Rattle.mr_run_file.specs.Reading.{IsRunFile, IsRun};
ghost use Rattle.mr_run_file.specs.Written.{IsReadBack};

/// A file is a run of one list at the most, and the number is that of its entries.
pub fn run_files_have_one_list()
    ensures one { (entries others : ℕ) (file : List ℕ) (vs ws : List Version) → IsRunFile entries file vs → IsRunFile others file ws → (entries ≡ others) × (vs ≡ ws) }
    ensures entries { (entries : ℕ) (file : List ℕ) (vs : List Version) → IsRunFile entries file vs → length vs ≡ entries }
{}

/// A run has one list at the most, and the number is that of its entries.
pub fn runs_have_one_list()
    ensures one { (direction : Direction) (entries others : ℕ) (file : List ℕ) (vs ws : List Version) → IsRun direction entries file vs → IsRun direction others file ws → (entries ≡ others) × (vs ≡ ws) }
    ensures entries { (direction : Direction) (entries : ℕ) (file : List ℕ) (vs : List Version) → IsRun direction entries file vs → length vs ≡ entries }
    ensures order { (direction : Direction) (entries : ℕ) (file : List ℕ) (vs : List Version) → IsRun direction entries file vs → IsInOrder (version_cmp direction) vs }
{}

/// What is written is read: the run of blocks that read back is read as their versions.
pub fn written_runs_are_read()
    ensures { (blocks : List (List Version)) → IsReadBack blocks }
{}
