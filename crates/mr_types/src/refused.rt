//! Why a statement isn't done.

ghost use Rattle.std.specs.Prelude.{◌≡◌};

use mr_base::Memory;
use std::alloc::AllocError;
use thiserror::Error;

/// Want of memory, or the number that the statement's reply says.
#[derive(Clone, Copy, Debug, PartialEq, Eq, Error)]
pub enum Refused {
    #[error("out of memory")]
    Memory,
    #[error("refused with {0}")]
    Sql(u16),
}

impl From<Memory> for Refused {
    ghost use Rattle.mr_types.specs.declared.refused.Refused.TheVariants.{Memory as NoMemory};

    ghost from_gives = { λ _ e. e ≡ NoMemory };

    fn from(_: Memory) -> Self {
        Refused::Memory
    }
}

impl From<AllocError> for Refused {
    ghost use Rattle.mr_types.specs.declared.refused.Refused.TheVariants.{Memory as NoMemory};

    ghost from_gives = { λ _ e. e ≡ NoMemory };

    fn from(_: AllocError) -> Self {
        Refused::Memory
    }
}
