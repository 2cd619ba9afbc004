//! A host over a folder and standard output.
ghost use Rattle.std.specs.Prelude.{◌≡◌, ◌≤◌, ◌+◌, ◌-◌, ◌^◌, length, min, IfOk, OnErr};
ghost use mathlib.Core.Bool.{true≢false};
ghost use Rattle.std.proofs.Common.{sym};
ghost use Rattle.mr_base.specs.Disk.{HasRisen};
ghost use Rattle.mr_base.specs.Calls.{Counts, EmitCounts};
ghost use Rattle.mr_edge.specs.Untold.{untold};

use crate::files::{FolderFiles, MOST_TRIES};
use crate::folder::Locking;
use crate::tally::Tally;
use mr_base::{Disk, DiskFault, EmitFault, Host, Memory};
use std::alloc::Global;
use std::io;
use std::os::unix::fs::FileExt;
use std::rt::Files;

/// A real folder, where file number f is `f.mr`, and standard output. In a missing folder each file has length 0, and
/// the first write makes the folder, but none that would hold it. A folder that is there is locked by the first call on
/// it until the host is dropped; while another host has it, each call is a fault, and nothing is touched.
#[derive(Drop)]
pub struct FolderHost<R: Files + Print> {
    files: FolderFiles<R>,
    tally: Tally,
}

impl<R: Files + Print + Drop> FolderHost<R>
where
    R::File: FileExt + Locking,
{
    /// Touches nothing. An empty name is of no folder: each call on it is a fault. All memory for the first 16 files is
    /// taken here, so that no later call on them wants any.
    pub fn new(rt: R, alloc: Global, folder: &str) -> Result<FolderHost<R>, Memory> {
        Ok(FolderHost {
            files: FolderFiles::new(rt, alloc, folder)?,
            tally: Tally::default(),
        })
    }
}

/// Writes some of the bytes. An interrupted write goes on.
fn write_some<R: Print>(rt: &R, piece: &[u8]) -> io::Result<usize>
    ensures { IfOk result (λ n. n ≤ length piece.now) }
{
    for _ in 0..MOST_TRIES {
        match rt.write_some(piece) {
            Err(error) if error.kind() == io::ErrorKind::Interrupted => {}
            answer => return answer,
        }
    }
    Err(io::ErrorKind::Interrupted.into())
}

impl<R: Files + Print> Disk for FolderHost<R>
where
    R::File: FileExt + Locking,
{
    ghost disk = { λ h. untold h.tally };

    ghost read_may_be_left = { λ h file tells. absurd (true≢false (sym tells)) };

    /// Counts each call, and the bytes that it asks for.
    fn read(&mut self, file: u64, at: u64, out: &mut [u8]) -> Result<usize, DiskFault>
        ensures counts { Counts 1 (length out.old) 0 (untold self.old.tally) (untold self.new.tally) }
        ensures cause { OnErr result (HasRisen self.old.tally.faults self.new.tally.faults) }
        ensures fits { IfOk result (λ n. n ≤ length out.old) }
        ensures counted { self.new.tally.reads ≡ min (self.old.tally.reads + 1) (2 ^ 64 - 1) }
        ensures all_asked { self.new.tally.asked ≡ min (self.old.tally.asked + length out.old) (2 ^ 64 - 1) }
    {
        self.tally.read(out.len());
        let answer = self.files.read(file, at, out);
        self.tally.ended(answer)
    }

    fn write_at(&mut self, file: u64, at: u64, bytes: &[u8]) -> Result<(), DiskFault> {
        let answer = self.files.write(file, at, bytes);
        self.tally.ended(answer)
    }

    fn cut(&mut self, file: u64, length: u64) -> Result<(), DiskFault> {
        let answer = self.files.cut(file, length);
        self.tally.ended(answer)
    }

    /// Counts each call.
    fn sync(&mut self, file: u64) -> Result<(), DiskFault>
        ensures counts { Counts 0 0 1 (untold self.old.tally) (untold self.new.tally) }
        ensures cause { OnErr result (HasRisen self.old.tally.faults self.new.tally.faults) }
        ensures counted { self.new.tally.syncs ≡ min (self.old.tally.syncs + 1) (2 ^ 64 - 1) }
    {
        self.tally.sync();
        let answer = self.files.sync(file);
        self.tally.ended(answer)
    }

    fn length(&mut self, file: u64) -> Result<u64, DiskFault> {
        let answer = self.files.length(file);
        self.tally.ended(answer)
    }
}

impl<R: Files + Print> Host for FolderHost<R>
where
    R::File: FileExt + Locking,
{
    /// One write to standard output. One that takes nothing of a piece is a fault.
    fn emit(&mut self, piece: &[u8]) -> Result<usize, EmitFault> {
        match write_some(&self.files.rt, piece) {
            Ok(written) if written > 0 || piece.is_empty() => Ok(written),
            _ => Err(self.tally.not_emitted()),
        }
    }
}
