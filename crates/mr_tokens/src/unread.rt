//! Why no statement was read.

use mr_base::Memory;
use std::alloc::AllocError;

/// Want of memory, or that the tokens aren't the phrase.
#[derive(Clone, Copy, Drop)]
pub enum Unread {
    /// No memory was left.
    Memory,
    /// The tokens aren't the phrase.
    Misspelled,
}

impl From<Memory> for Unread {
    ghost use Rattle.std.specs.Prelude.{◌≡◌};
    ghost use Rattle.mr_tokens.specs.declared.unread.Unread.TheVariants.{Memory as NoMemory};

    ghost from_gives = { λ _ e. e ≡ NoMemory };

    fn from(_: Memory) -> Self {
        Unread::Memory
    }
}

impl From<AllocError> for Unread {
    ghost use Rattle.std.specs.Prelude.{◌≡◌};
    ghost use Rattle.mr_tokens.specs.declared.unread.Unread.TheVariants.{Memory as NoMemory};

    ghost from_gives = { λ _ e. e ≡ NoMemory };

    fn from(_: AllocError) -> Self {
        Unread::Memory
    }
}
