//! What follows from the format for an open run, for callers to cite.
ghost use Rattle.std.specs.Prelude.{◌≡◌, ℕ, List, true, drop, Ok};
ghost use Rattle.mr_base.specs.declared.stop.Direction.{Direction};
ghost use Rattle.mr_iter.specs.Versions.{Version, from_key};
ghost use Rattle.mr_iter.specs.Newest.{newest};
ghost use Rattle.mr_run_file.specs.Format.{first_key, last_key};
ghost use Rattle.mr_run_file.specs.Reading.{Index, IsRunFile, IsRun, structure_in};
ghost use Rattle.mr_run_open.specs.Runs.{first_of, first_block, blocks_with, are_in_order};
ghost use Rattle.mr_run_open.specs.Blocks.{lists_of, AreBlocks};

/// A run's list is that of its blocks, each of which is one; its first and last key are those of the index, whose first keys are in
/// the order of the run.
pub fn runs_are_their_blocks()
    ensures blocks { (entries : ℕ) (file : List ℕ) (vs : List Version) (index : Index) → IsRunFile entries file vs → structure_in entries file ≡ Ok index → AreBlocks file index.blocks × (vs ≡ lists_of file index.blocks) }
    ensures first { (entries : ℕ) (file : List ℕ) (vs : List Version) (index : Index) → IsRunFile entries file vs → structure_in entries file ≡ Ok index → first_of index ≡ first_key vs }
    ensures last { (entries : ℕ) (file : List ℕ) (vs : List Version) (index : Index) → IsRunFile entries file vs → structure_in entries file ≡ Ok index → index.last ≡ last_key vs }
    ensures order { (d : Direction) (entries : ℕ) (file : List ℕ) (vs : List Version) (index : Index) → IsRun d entries file vs → structure_in entries file ≡ Ok index → are_in_order d index.blocks ≡ true }
{}

/// The versions of a key stand in the blocks in which it can stand, and those from a key on in the blocks from the first of these on.
pub fn keys_stand_in_their_blocks()
    ensures newest { (d : Direction) (entries number : ℕ) (key file : List ℕ) (vs : List Version) (index : Index) → IsRun d entries file vs → structure_in entries file ≡ Ok index → newest number key vs ≡ newest number key (lists_of file (blocks_with d key index.blocks)) }
    ensures from { (d : Direction) (entries : ℕ) (key file : List ℕ) (vs : List Version) (index : Index) → IsRun d entries file vs → structure_in entries file ≡ Ok index → from_key d key vs ≡ from_key d key (lists_of file (drop (first_block d key index.blocks) index.blocks)) }
{}
