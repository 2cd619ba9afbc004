//! A block that is held, and known to be one.
ghost use Rattle.std.specs.Prelude.{◌≡◌, ◌<◌, length, get_or, IfOk, IfErr, Ok, Err};
ghost use Rattle.mr_block.specs.Block.{block_in, block_bytes, list_of, no_version};
ghost use Rattle.mr_block.specs.Held.{version_held};

use crate::block_ref::BlockRef;
use crate::found::Found;
use bytes::Bytes;
use mr_base::{Malformed, Memory};
use std::marker::Model;

/// A buffer that is a block, as the list of its versions. It is judged once, and shared without a copy.
#[derive(Drop)]
pub struct SharedBlock {
    block: Bytes,
}

impl Model for SharedBlock {
    ghost use Rattle.std.specs.Prelude.{List};
    ghost use Rattle.mr_iter.specs.Versions.{Version};
    ghost use Rattle.mr_block.specs.Block.{block_in, list_of, IsBlock};

    ghost Value = { List Version };

    ghost view = { λ b. list_of (block_in b.block) };

    ghost invariant = { λ b. IsBlock b.block };
}

impl SharedBlock {
    /// The block that the bytes are, or the first offending place.
    pub fn parse(block: Bytes) -> Result<SharedBlock, Malformed>
        ensures ok { IfOk result (λ b. block_in block ≡ Ok b) }
        ensures form { IfOk result (λ b. block ≡ block_bytes b) }
        ensures err { IfErr result (λ m. block_in block ≡ Err m.0) }
    {
        BlockRef::parse(&block)?;
        Ok(SharedBlock { block })
    }

    /// The block where it stands. It is not judged again.
    pub fn view(&self) -> BlockRef<'_>
        ensures { result ≡ self.now }
    {
        BlockRef::of(&self.block)
    }

    /// The same block for another holder. Takes memory.
    pub fn share(&self) -> Result<SharedBlock, Memory>
        ensures { IfOk result (λ b. b ≡ self.now) }
    {
        match self.block.clone() {
            Ok(block) => Ok(SharedBlock { block }),
            Err(_) => Err(Memory),
        }
    }

    /// Version `at`, in the block that it keeps. Takes memory.
    pub fn found(&self, at: usize) -> Result<Found, Memory>
        requires { at < length self.now }
        ensures block { IfOk result (λ f. list_of (block_in f.block) ≡ self.now) }
        ensures at { IfOk result (λ f. f.at ≡ at) }
        ensures version { IfOk result (λ f. version_held f ≡ get_or self.now at no_version) }
    {
        match self.block.clone() {
            Ok(block) => Ok(Found::new(block, at)),
            Err(_) => Err(Memory),
        }
    }
}
