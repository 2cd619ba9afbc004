//! Why a call ends early.
ghost use Rattle.std.specs.Prelude.{◌≡◌};

use std::alloc::{AllocError, AllocFailed};
use thiserror::Error;

/// Want of memory.
#[derive(Clone, Copy, Debug, PartialEq, Eq, Error)]
#[error("out of memory")]
pub struct Memory;

impl From<AllocError> for Memory {
    ghost from_gives = { λ _ _. Unit {0} };

    fn from(_: AllocError) -> Self {
        Memory
    }
}

/// A call of a disk failed; it may have been done in part.
#[derive(Clone, Copy, Debug, PartialEq, Eq, Error)]
#[error("disk fault")]
pub struct DiskFault;

/// Nothing of a piece of the output was emitted.
#[derive(Clone, Copy, Debug, PartialEq, Eq, Error)]
#[error("write fault")]
pub struct EmitFault;

/// Nothing was taken from a source.
#[derive(Clone, Copy, Debug, PartialEq, Eq, Error)]
#[error("read fault")]
pub struct SourceFault;

/// What has reached its limit.
#[derive(Clone, Copy, Debug, PartialEq, Eq)]
pub enum FullKind {
    /// The length in bytes of the log in this file.
    Log(u64),
    /// The sequence number, below 2^63.
    Sequence,
    /// The greatest index number, at most 2^32 - 1.
    Index,
    /// The next file number, at most 2^63.
    File,
}

/// Why a call on a disk ended without doing what it is for.
#[derive(Clone, Copy, Debug, PartialEq, Eq, Error)]
pub enum Stop {
    #[error("out of memory")]
    Memory,
    /// A count of disk faults rose in the call.
    #[error("disk fault")]
    Disk,
    /// `at` stands now, and `limit` would be passed (a sequence number: is reached).
    #[error("full at {at} limit {limit}")]
    Full { what: FullKind, at: u64, limit: u64 },
    /// The first place found in the file that isn't in the file's grammar.
    #[error("damaged file {file} at {at}")]
    Damaged { file: u64, at: u64 },
}

impl From<DiskFault> for Stop {
    ghost use Rattle.mr_base.specs.declared.stop.Stop.TheVariants.{Disk as DiskStop};

    ghost from_gives = { λ _ e. e ≡ DiskStop };

    fn from(_: DiskFault) -> Self {
        Stop::Disk
    }
}

impl From<Memory> for Stop {
    ghost use Rattle.mr_base.specs.declared.stop.Stop.TheVariants.{Memory as MemoryStop};

    ghost from_gives = { λ _ e. e ≡ MemoryStop };

    fn from(_: Memory) -> Self {
        Stop::Memory
    }
}

impl From<AllocError> for Stop {
    ghost use Rattle.mr_base.specs.declared.stop.Stop.TheVariants.{Memory as MemoryStop};

    ghost from_gives = { λ _ e. e ≡ MemoryStop };

    fn from(_: AllocError) -> Self {
        Stop::Memory
    }
}

impl<T: Drop> From<AllocFailed<T>> for Stop {
    ghost use Rattle.mr_base.specs.declared.stop.Stop.TheVariants.{Memory as MemoryStop};

    ghost from_gives = { λ _ e. e ≡ MemoryStop };

    fn from(_: AllocFailed<T>) -> Self {
        Stop::Memory
    }
}

/// Bytes that are not in a format's grammar, with the first offending place.
#[derive(Clone, Copy, Debug, PartialEq, Eq, Error)]
#[error("malformed at {0}")]
pub struct Malformed(pub u64);

/// Why a reader that copies what it reads gives nothing.
#[derive(Clone, Copy, Debug, PartialEq, Eq, Error)]
pub enum DefAnswer {
    #[error("out of memory")]
    Memory,
    /// The first offending place.
    #[error("malformed at {0}")]
    Malformed(u64),
}

impl From<Memory> for DefAnswer {
    ghost use Rattle.mr_base.specs.declared.stop.DefAnswer.TheVariants.{Memory as MemoryAnswer};

    ghost from_gives = { λ _ e. e ≡ MemoryAnswer };

    fn from(_: Memory) -> Self {
        DefAnswer::Memory
    }
}

impl From<AllocError> for DefAnswer {
    ghost use Rattle.mr_base.specs.declared.stop.DefAnswer.TheVariants.{Memory as MemoryAnswer};

    ghost from_gives = { λ _ e. e ≡ MemoryAnswer };

    fn from(_: AllocError) -> Self {
        DefAnswer::Memory
    }
}

impl From<Malformed> for DefAnswer {
    ghost use Rattle.mr_base.specs.declared.stop.DefAnswer.TheVariants.{Malformed as MalformedAnswer};

    ghost from_gives = { λ m e. e ≡ MalformedAnswer m.0 };

    fn from(malformed: Malformed) -> Self {
        DefAnswer::Malformed(malformed.0)
    }
}

/// Which way a family orders its keys.
#[derive(Clone, Copy, Debug, PartialEq, Eq)]
pub enum Direction {
    Forward,
    Reverse,
}
