//! Why a reader gives nothing.

ghost use Rattle.std.specs.Prelude.{◌≡◌};
ghost use Rattle.mr_fields.specs.Given.{Ends, told};

use mr_base::{DefAnswer, Memory};
use std::alloc::{AllocError, AllocFailed};

/// How many bytes are left from the first byte of the field that breaks its rule or isn't whole.
#[derive(Clone, Copy, Drop)]
pub struct Offence(pub usize);

/// Why a reader that copies what it reads gives nothing.
#[derive(Clone, Copy, Drop)]
pub enum ReadStop {
    Memory,
    /// So many bytes are left from the first offence on.
    Left(usize),
}

impl From<Offence> for ReadStop {
    ghost use Rattle.mr_fields.specs.declared.stop.ReadStop.TheVariants.{Left};

    ghost from_gives = { λ o e. e ≡ Left o.0 };

    fn from(offence: Offence) -> Self {
        ReadStop::Left(offence.0)
    }
}

impl From<Memory> for ReadStop {
    ghost use Rattle.mr_fields.specs.declared.stop.ReadStop.TheVariants.{Memory as MemoryStop};

    ghost from_gives = { λ _ e. e ≡ MemoryStop };

    fn from(_: Memory) -> Self {
        ReadStop::Memory
    }
}

impl From<AllocError> for ReadStop {
    ghost use Rattle.mr_fields.specs.declared.stop.ReadStop.TheVariants.{Memory as MemoryStop};

    ghost from_gives = { λ _ e. e ≡ MemoryStop };

    fn from(_: AllocError) -> Self {
        ReadStop::Memory
    }
}

impl<T: Drop> From<AllocFailed<T>> for ReadStop {
    ghost use Rattle.mr_fields.specs.declared.stop.ReadStop.TheVariants.{Memory as MemoryStop};

    ghost from_gives = { λ _ e. e ≡ MemoryStop };

    fn from(_: AllocFailed<T>) -> Self {
        ReadStop::Memory
    }
}

/// Nothing stands behind, or these bytes are left over.
pub fn end_of(bytes: &[u8]) -> Result<(), Offence>
    ensures { Ends result bytes.now }
{
    if bytes.is_empty() {
        Ok(())
    } else {
        Err(Offence(bytes.len()))
    }
}

/// What a reader of the whole answers, from what one of the fields answered: the place among so many
/// bytes.
pub fn answer_of(total: usize, stop: ReadStop) -> DefAnswer
    ensures { result ≡ told total stop }
{
    match stop {
        ReadStop::Memory => DefAnswer::Memory,
        ReadStop::Left(left) => DefAnswer::Malformed(total.saturating_sub(left) as u64),
    }
}
