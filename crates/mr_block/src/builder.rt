//! Making a block.
ghost use Rattle.std.specs.Prelude.{◌≡◌, ◌^◌, ◌-◌, min, nat_lt, length, ◌++◌, ◌∷◌, [], OnOk, OnErr, IfOk, Ok};
ghost use Rattle.std.specs.List.{AllByRecursion};
ghost use Rattle.std.specs.Option.{option_map};
ghost use Rattle.mr_iter.specs.Versions.{as_version};
ghost use Rattle.mr_block.specs.Block.{block_bytes, block_in};
ghost use Rattle.mr_block.specs.Built.{placed, FitsEntry};

use crate::write::{write_entry, write_u32};
use mr_base::{Blob, Memory};
use std::alloc::Global;
use std::marker::Model;

/// A block that is being made, as the list of the versions that were added: their entries, where each begins among them, and a place to write the
/// next one.
#[derive(Drop)]
pub struct BlockBuilder {
    entries: Vec<u8>,
    offsets: Vec<usize>,
    scratch: Vec<u8>,
}

impl Model for BlockBuilder {
    ghost use Rattle.std.specs.Prelude.{List, length};
    ghost use Rattle.mr_iter.specs.Versions.{Version};
    ghost use Rattle.mr_block.specs.Built.{IsBuilt, versions_in};

    ghost Value = { List Version };

    ghost view = { λ b. versions_in (length b.offsets.items) b.entries.items };

    ghost invariant = { λ b. IsBuilt b.entries.items b.offsets.items (versions_in (length b.offsets.items) b.entries.items) };
}

/// Whether a length has a place in a field of 4 bytes.
fn has_field(bytes: &[u8]) -> bool
    ensures { result ≡ nat_lt (length bytes.now) (2 ^ 32) }
{
    bytes.len() < 0x1_0000_0000
}

/// The places of entries that begin at these offsets behind `start`.
fn write_places(out: &mut Vec<u8>, start: usize, offsets: &[usize]) -> Result<(), Memory>
    ensures { OnOk result (out.new.items ≡ out.old.items ++ placed start offsets.now) }
{
    'placing: for offset in offsets {
        let Ok(place) = u32::try_from(start.saturating_add(*offset)) else {
            return Err(Memory);
        };
        write_u32(out, place)?;
    }
    Ok(())
}

impl BlockBuilder {
    /// No version.
    pub fn new(alloc: Global) -> BlockBuilder
        ensures { result ≡ [] }
    {
        BlockBuilder {
            entries: Vec::new(alloc),
            offsets: Vec::new(alloc),
            scratch: Vec::new(alloc),
        }
    }

    /// Adds a version behind the others; `put` is None for a deletion. Takes memory; after an error it has just the others. A key or a value of 2^32
    /// bytes or more is answered as want of memory.
    pub fn add(&mut self, key: &[u8], sequence: u64, put: Option<&[u8]>) -> Result<(), Memory>
        ensures added { OnOk result (self.new ≡ self.old ++ as_version key.now sequence (option_map (λ v. v.now) put.entry) ∷ []) }
        ensures fits { OnOk result (FitsEntry (as_version key.now sequence (option_map (λ v. v.now) put.entry))) }
        ensures same { OnErr result (self.new ≡ self.old) }
    {
        if !has_field(key) || !has_field(put.unwrap_or(&[])) {
            return Err(Memory);
        }
        self.scratch.clear();
        write_entry(&mut self.scratch, key, sequence, put)?;
        match self.offsets.push(self.entries.len()) {
            Ok(()) => {}
            Err(_) => return Err(Memory),
        }
        match self.entries.extend_from_slice(&self.scratch) {
            Ok(()) => Ok(()),
            Err(_) => {
                let before = self.offsets.len() - 1;
                self.offsets.truncate(before);
                Err(Memory)
            }
        }
    }

    /// The length in bytes of the block of the versions, or the greatest number where it has more.
    pub fn block_len(&self) -> usize
        ensures { result ≡ min (length (block_bytes self.now)) (2 ^ 64 - 1) }
    {
        4usize
            .saturating_add(self.offsets.len().saturating_mul(4))
            .saturating_add(self.entries.len())
    }

    /// The block of the versions. Takes memory. A block of 2^32 bytes or more is answered as want of memory.
    pub fn finish(self) -> Result<Blob, Memory>
        ensures written { IfOk result (λ b. b ≡ block_bytes self) }
        ensures fits { OnOk result (AllByRecursion FitsEntry self) }
        ensures reads_back { IfOk result (λ b. block_in b ≡ Ok self) }
    {
        let count = self.offsets.len();
        let Ok(number) = u32::try_from(count) else {
            return Err(Memory);
        };
        let start = 4 + 4 * number as usize;
        let total = start.saturating_add(self.entries.len());
        if total >= 0x1_0000_0000 {
            return Err(Memory);
        }
        let mut out = Vec::with_capacity(*self.entries.allocator(), total)?;
        write_u32(&mut out, number)?;
        write_places(&mut out, start, &self.offsets)?;
        out.extend_from_slice(&self.entries)?;
        Ok(Blob::from_vec(out))
    }
}
