//! What the bytes of a run are.
ghost use Rattle.std.specs.Prelude.{◌≡◌, ℕ, List, true};
ghost use Rattle.std.specs.List.{list_all};
ghost use Rattle.mr_iter.specs.Versions.{Version};
ghost use Rattle.mr_block.specs.Fields.{is_byte};
ghost use Rattle.mr_run_file.specs.Reading.{IsRunFile};
ghost use Rattle.mr_run_laws.specs.Written.{IsRunOf};

/// Only what is written is read: bytes that are a run are, byte for byte, the run of blocks whose versions are its list.
pub fn runs_are_as_they_are_written()
    ensures { (entries : ℕ) (file : List ℕ) (vs : List Version) → list_all is_byte file ≡ true → IsRunFile entries file vs → (vss : List (List Version)) × IsRunOf file vs vss }
{}
