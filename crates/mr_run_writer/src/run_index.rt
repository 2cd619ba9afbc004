//! The index of a run that is being written, and the footer behind it.
//!
//!     index   for each block: place u64, length u32, its first key; then the last key of the run
//!     key     length u32, key
//!     footer  40 bytes: place of the index u64, its length u64, blocks u64, entries u64, the 8 bytes MRRUN001
ghost use Rattle.std.specs.Prelude.{◌≡◌, ◌<◌, ◌+◌, ◌^◌, ◌++◌, [], length, IfOk, OnOk};
ghost use Rattle.byteorder.specs.Endian.{big_bytes};
ghost use Rattle.mr_run_file.specs.Format.{key_bytes, footer_bytes};

use crate::fields::{write_bytes, write_key, write_u32, write_u64};
use mr_base::Memory;
use std::alloc::Global;

const FORMAT_NAME: [u8; 8] = *b"MRRUN001";

/// The entries of the blocks so far, as bytes, and how many they are.
#[derive(Drop)]
pub struct RunIndex {
    pub bytes: Vec<u8>,
    pub blocks: u64,
}

impl RunIndex {
    /// No block.
    pub fn new(alloc: Global) -> RunIndex
        ensures bytes { result.bytes.items ≡ [] }
        ensures blocks { result.blocks ≡ 0 }
    {
        RunIndex {
            bytes: Vec::new(alloc),
            blocks: 0,
        }
    }

    /// Adds a block by its place, its length in bytes and its first key. Takes memory; a length of 2^32 or more is answered as
    /// want of it.
    pub fn add(&mut self, place: u64, size: usize, key: &[u8]) -> Result<(), Memory>
        ensures bytes { OnOk result (self.new.bytes.items ≡ ((self.old.bytes.items ++ big_bytes 8 place) ++ big_bytes 4 size) ++ key_bytes key.now) }
        ensures blocks { OnOk result (self.new.blocks ≡ self.old.blocks + 1) }
        ensures size { OnOk result (size < 2 ^ 32) }
        ensures key { OnOk result (length key.now < 2 ^ 32) }
    {
        let Ok(size) = u32::try_from(size) else {
            return Err(Memory);
        };
        let Some(blocks) = self.blocks.checked_add(1) else {
            return Err(Memory);
        };
        write_u64(&mut self.bytes, place)?;
        write_u32(&mut self.bytes, size)?;
        write_key(&mut self.bytes, key)?;
        self.blocks = blocks;
        Ok(())
    }

    /// The index with the run's last key, and the footer: what stands behind the blocks, which end at `place`. Takes memory.
    pub fn finish(self, place: u64, last: &[u8], entries: u64) -> Result<Vec<u8>, Memory>
        ensures bytes { IfOk result (λ b. b.items ≡ (self.bytes.items ++ key_bytes last.now) ++ footer_bytes place (length (self.bytes.items ++ key_bytes last.now)) self.blocks entries) }
        ensures last { IfOk result (λ b. length last.now < 2 ^ 32) }
    {
        let RunIndex { mut bytes, blocks } = self;
        write_key(&mut bytes, last)?;
        let size = bytes.len() as u64;
        write_footer(&mut bytes, place, size, blocks, entries)?;
        Ok(bytes)
    }
}

fn write_footer(
    out: &mut Vec<u8>,
    place: u64,
    size: u64,
    blocks: u64,
    entries: u64,
) -> Result<(), Memory>
    ensures { OnOk result (out.new.items ≡ out.old.items ++ footer_bytes place size blocks entries) }
{
    write_u64(out, place)?;
    write_u64(out, size)?;
    write_u64(out, blocks)?;
    write_u64(out, entries)?;
    write_bytes(out, &FORMAT_NAME)
}
