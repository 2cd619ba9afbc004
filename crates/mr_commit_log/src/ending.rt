//! Why a run ends before its script does.

ghost use Rattle.std.specs.Prelude.{◌≡◌};

use mr_base::{EmitFault, Memory, SourceFault, Stop};
use std::alloc::AllocFailed;
use thiserror::Error;

/// Why a run ends before its script does.
#[derive(Clone, Copy, Debug, PartialEq, Eq, Error)]
pub enum Ending {
    /// Memory, the disk, a full log or a damaged folder.
    #[error(transparent)]
    Stopped(Stop),
    /// Nothing of a piece of the output was taken.
    #[error("write fault")]
    EmitFault,
    /// Nothing of the script was given.
    #[error("read fault")]
    SourceFault,
    /// The script has more than 2^30 bytes.
    #[error("script too long")]
    TooLong,
}

impl From<Stop> for Ending {
    ghost use Rattle.mr_commit_log.specs.declared.ending.Ending.TheVariants.{Stopped};

    ghost from_gives = { λ s e. e ≡ Stopped s };

    fn from(stop: Stop) -> Self {
        Ending::Stopped(stop)
    }
}

impl From<Memory> for Ending {
    ghost use Rattle.mr_commit_log.specs.declared.ending.Ending.TheVariants.{Stopped};
    ghost use Rattle.mr_base.specs.declared.stop.Stop.TheVariants.{Memory as MemoryStop};

    ghost from_gives = { λ _ e. e ≡ Stopped MemoryStop };

    fn from(_: Memory) -> Self {
        Ending::Stopped(Stop::Memory)
    }
}

impl<T: Drop> From<AllocFailed<T>> for Ending {
    ghost use Rattle.mr_commit_log.specs.declared.ending.Ending.TheVariants.{Stopped};
    ghost use Rattle.mr_base.specs.declared.stop.Stop.TheVariants.{Memory as MemoryStop};

    ghost from_gives = { λ _ e. e ≡ Stopped MemoryStop };

    fn from(_: AllocFailed<T>) -> Self {
        Ending::Stopped(Stop::Memory)
    }
}

impl From<EmitFault> for Ending {
    ghost use Rattle.mr_commit_log.specs.declared.ending.Ending.TheVariants.{EmitFault as Emitting};

    ghost from_gives = { λ _ e. e ≡ Emitting };

    fn from(_: EmitFault) -> Self {
        Ending::EmitFault
    }
}

impl From<SourceFault> for Ending {
    ghost use Rattle.mr_commit_log.specs.declared.ending.Ending.TheVariants.{SourceFault as Reading};

    ghost from_gives = { λ _ e. e ≡ Reading };

    fn from(_: SourceFault) -> Self {
        Ending::SourceFault
    }
}
