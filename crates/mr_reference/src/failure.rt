//! Why a run prints nothing.

ghost use Rattle.std.specs.Prelude.{◌≡◌};
ghost use Rattle.mr_reference.specs.Status.{status_of};

use mr_base::{Memory, SourceFault};
use std::alloc::AllocError;
use thiserror::Error;

/// Why a run ends without replies.
#[derive(Clone, Copy, Debug, PartialEq, Eq, Error)]
pub enum Failure {
    #[error("usage: mr_reference [--now=SECONDS | --clock=SECONDS,SECONDS,..]")]
    Usage,
    #[error("out of memory")]
    Memory,
    /// Nothing of the script was given.
    #[error("read fault")]
    Read,
    /// Not all of the replies were taken.
    #[error("write fault")]
    Write,
    /// The script has more than 2^30 bytes.
    #[error("script too long")]
    TooLong,
}

impl Failure {
    /// The program's exit status.
    pub fn status(self) -> u8
        ensures { result ≡ status_of self }
    {
        match self {
            Failure::Usage => 2,
            Failure::Memory => 3,
            Failure::Read => 4,
            Failure::Write => 6,
            Failure::TooLong => 8,
        }
    }
}

impl From<Memory> for Failure {
    ghost use Rattle.mr_reference.specs.declared.failure.Failure.TheVariants.{Memory as NoMemory};

    ghost from_gives = { λ _ e. e ≡ NoMemory };

    fn from(_: Memory) -> Self {
        Failure::Memory
    }
}

impl From<AllocError> for Failure {
    ghost use Rattle.mr_reference.specs.declared.failure.Failure.TheVariants.{Memory as NoMemory};

    ghost from_gives = { λ _ e. e ≡ NoMemory };

    fn from(_: AllocError) -> Self {
        Failure::Memory
    }
}

impl From<SourceFault> for Failure {
    ghost use Rattle.mr_reference.specs.declared.failure.Failure.TheVariants.{Read};

    ghost from_gives = { λ _ e. e ≡ Read };

    fn from(_: SourceFault) -> Self {
        Failure::Read
    }
}
