//! The blocks that were read last.
ghost use Rattle.std.specs.Prelude.{◌≡◌, ◌≤◌, [], length, is_some, IfOk, IsOk, IsSome, OnOk, OnErr};
ghost use Rattle.std.specs.List.{IsDistinct};
ghost use Rattle.std.specs.Map.{keys_of};
ghost use Rattle.mr_block_cache.specs.Cache.{held, is_same, with_block, brought};

use crate::span::FileSpan;
use lru::LruCache;
use mr_base::Memory;
use mr_block::SharedBlock;
use std::alloc::Global;
use std::marker::Model;
use std::num::NonZeroUsize;

/// How many blocks a cache holds at the most.
const CAPACITY: usize = 1024;

/// The blocks that were used last, by where they stand, as the list of their spans and versions, the most recently used first. It
/// holds at most 1,024.
#[derive(Drop)]
pub struct BlockCache {
    blocks: LruCache<FileSpan, SharedBlock>,
}

impl Model for BlockCache {
    ghost use Rattle.std.specs.Prelude.{◌≡◌, ◌≤◌, List, length};
    ghost use Rattle.mr_block_cache.specs.Cache.{CachedBlock};

    ghost Value = { List CachedBlock };

    ghost view = { λ c. c.blocks.entries };

    ghost invariant = { λ c. (c.blocks.cap ≡ 1024) × (length c.blocks.entries ≤ 1024) };
}

impl BlockCache {
    /// A cache that holds no block. Takes memory.
    pub fn new(alloc: Global) -> Result<BlockCache, Memory>
        ensures { IfOk result (λ c. c ≡ []) }
    {
        match LruCache::new(alloc, NonZeroUsize::new(CAPACITY).unwrap()) {
            Ok(blocks) => Ok(BlockCache { blocks }),
            Err(_) => Err(Memory),
        }
    }

    /// How many blocks it holds.
    pub fn len(&self) -> usize
        ensures len { result ≡ length self.now }
        ensures few { result ≤ 1024 }
        ensures apart { IsDistinct is_same (keys_of self.now) }
    {
        self.blocks.len()
    }

    /// Whether it holds a block. The order stays.
    pub fn holds(&self, span: FileSpan) -> bool
        ensures { result ≡ is_some (held span self.now) }
    {
        self.blocks.contains(&span)
    }

    /// A block that it holds. The order stays. Takes memory.
    pub fn share(&self, span: FileSpan) -> Result<SharedBlock, Memory>
        requires { IsSome (held span self.now) }
        ensures { IfOk result (λ b. held span self.now ≡ Rattle.std.specs.Prelude.Some b) }
    {
        self.blocks.peek(&span).unwrap().share()
    }

    /// The block of a span, which goes to the front, None where it isn't held. Takes memory; after an error nothing has changed.
    pub fn find(&mut self, span: FileSpan) -> Result<Option<SharedBlock>, Memory>
        ensures found { IfOk result (λ b. b ≡ held span self.old) }
        ensures front { OnOk result (self.new ≡ brought span self.old) }
        ensures same { OnErr result (self.new ≡ self.old) }
    {
        let block = match self.blocks.peek(&span) {
            Some(block) => block.share()?,
            None => return Ok(None),
        };
        self.blocks.promote(&span);
        Ok(Some(block))
    }

    /// Puts a block to the front, in place of one of the same span; the last one falls out where there are more than 1,024. Takes
    /// memory, but for a span that it holds; after an error nothing has changed.
    pub fn put(&mut self, span: FileSpan, block: SharedBlock) -> Result<(), Memory>
        ensures put { OnOk result (self.new ≡ with_block span block self.old) }
        ensures same { OnErr result (self.new ≡ self.old) }
        ensures free { IsSome (held span self.old) → IsOk result }
    {
        match self.blocks.put(span, block) {
            Ok(_) => Ok(()),
            Err(_) => Err(Memory),
        }
    }
}
