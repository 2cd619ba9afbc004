//! A version that was looked up, in the block that holds it.
ghost use Rattle.std.specs.Prelude.{◌≡◌, ◌<◌, length, is_some, unwrap_or, []};
ghost use Rattle.mr_block.specs.Block.{block_in, list_of, IsBlock};
ghost use Rattle.mr_block.specs.Held.{version_held};

use crate::block::entry_at;
use bytes::Bytes;
use std::marker::Model;

/// A version in a pinned block, which is a buffer that is shared with whoever else holds it. It may be a deletion. No call takes memory.
#[derive(Drop)]
pub struct Found {
    block: Bytes,
    at: usize,
}

impl Model for Found {
    ghost use Rattle.std.specs.Prelude.{◌<◌, length};
    ghost use Rattle.mr_block.specs.Block.{block_in, list_of, IsBlock};
    ghost use Rattle.mr_block.specs.Held.{Held};

    ghost Value = { Held };

    ghost view = { λ f. record { block = f.block; at = f.at } };

    ghost invariant = { λ f. IsBlock f.block × (f.at < length (list_of (block_in f.block))) };
}

impl Found {
    /// Version `at` of a block.
    pub fn new(block: Bytes, at: usize) -> Found
        requires block { IsBlock block }
        requires within { at < length (list_of (block_in block)) }
        ensures block { result.block ≡ block }
        ensures at { result.at ≡ at }
    {
        Found { block, at }
    }

    pub fn key(&self) -> &[u8]
        ensures { result.now ≡ (version_held self.now).key }
    {
        entry_at(&self.block, self.at).key
    }

    /// The value, empty for a deletion.
    pub fn value(&self) -> &[u8]
        ensures { result.now ≡ unwrap_or (version_held self.now).put [] }
    {
        let entry = entry_at(&self.block, self.at);
        if entry.is_put { entry.value } else { &[] }
    }

    pub fn sequence(&self) -> u64
        ensures { result ≡ (version_held self.now).sequence }
    {
        entry_at(&self.block, self.at).sequence
    }

    /// False for a deletion.
    pub fn is_put(&self) -> bool
        ensures { result ≡ is_some (version_held self.now).put }
    {
        entry_at(&self.block, self.at).is_put
    }
}
