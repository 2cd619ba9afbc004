//! The block of a run to which versions are being added.
ghost use Rattle.std.specs.Prelude.{◌≡◌, ◌++◌, ◌∷◌, [], length, true, false, nat_le, if◌then◌else◌, OnOk, IfOk, Ok};
ghost use Rattle.std.specs.Option.{option_map};
ghost use Rattle.mr_iter.specs.Versions.{as_version};
ghost use Rattle.mr_block.specs.Block.{block_bytes, block_in};

use mr_base::{Blob, Memory};
use mr_block::BlockBuilder;
use std::alloc::Global;
use std::mem;

/// A block of this many bytes is closed.
pub const BLOCK_BYTES: usize = 4096;

/// The versions of the block, whether there are none, and the first one's key where there are some.
#[derive(Drop)]
pub struct OpenBlock {
    pub versions: BlockBuilder,
    pub is_empty: bool,
    pub first: Vec<u8>,
    pub alloc: Global,
}

/// Puts the key in its place.
pub fn set_key(place: &mut Vec<u8>, key: &[u8]) -> Result<(), Memory>
    ensures { OnOk result (place.new.items ≡ key.now) }
{
    place.clear();
    place.extend_from_slice(key)?;
    Ok(())
}

fn set_first(place: &mut Vec<u8>, is_first: bool, key: &[u8]) -> Result<(), Memory>
    ensures { OnOk result (place.new.items ≡ (if is_first then key.now else place.old.items)) }
{
    if is_first {
        set_key(place, key)
    } else {
        Ok(())
    }
}

impl OpenBlock {
    /// No version.
    pub fn new(alloc: Global) -> OpenBlock
        ensures versions { result.versions ≡ [] }
        ensures is_empty { result.is_empty ≡ true }
    {
        OpenBlock {
            versions: BlockBuilder::new(alloc),
            is_empty: true,
            first: Vec::new(alloc),
            alloc,
        }
    }

    /// Adds a version; `put` is None for a deletion. Takes memory.
    pub fn add(&mut self, key: &[u8], sequence: u64, put: Option<&[u8]>) -> Result<(), Memory>
        ensures versions { OnOk result (self.new.versions ≡ self.old.versions ++ as_version key.now sequence (option_map (λ v. v.now) put.entry) ∷ []) }
        ensures first { OnOk result (self.new.first.items ≡ (if self.old.is_empty then key.now else self.old.first.items)) }
        ensures is_empty { OnOk result (self.new.is_empty ≡ false) }
    {
        set_first(&mut self.first, self.is_empty, key)?;
        self.versions.add(key, sequence, put)?;
        self.is_empty = false;
        Ok(())
    }

    /// Whether it has at least 4,096 bytes.
    pub fn is_full(&self) -> bool
        ensures { result ≡ nat_le 4096 (length (block_bytes self.now.versions)) }
    {
        self.versions.block_len() >= BLOCK_BYTES
    }

    /// The block, and none is left; its first key stays. Takes memory.
    pub fn close(&mut self) -> Result<Blob, Memory>
        ensures versions { self.new.versions ≡ [] }
        ensures is_empty { self.new.is_empty ≡ true }
        ensures first { self.new.first.items ≡ self.old.first.items }
        ensures block { IfOk result (λ b. b ≡ block_bytes self.old.versions) }
        ensures reads_back { IfOk result (λ b. block_in (block_bytes self.old.versions) ≡ Ok self.old.versions) }
    {
        let versions = mem::replace(&mut self.versions, BlockBuilder::new(self.alloc));
        self.is_empty = true;
        versions.finish()
    }
}
