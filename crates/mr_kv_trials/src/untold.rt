//! A host in memory that tells nothing of what it has.
ghost use Rattle.std.specs.Prelude.{◌≤◌, length};
ghost use mathlib.Core.Bool.{true≢false};
ghost use Rattle.std.proofs.Common.{sym};
ghost use Rattle.mr_base.specs.Disk.{file_of};
ghost use Rattle.mr_memhost.specs.Host.{disk_state};
ghost use Rattle.mr_kv_trials.specs.Silent.{silent};

use mr_base::{Disk, DiskFault};
use mr_memhost::MemHost;
use std::alloc::Global;

/// Passes each call on. A place behind a file's end is taken for the end.
#[derive(Drop)]
pub struct Untold {
    pub host: MemHost,
}

impl Untold {
    /// Without a file.
    pub fn new(alloc: Global) -> Untold {
        Untold {
            host: MemHost::new(alloc),
        }
    }

    /// The host below.
    pub fn into_host(self) -> MemHost {
        self.host
    }

    /// The place, or the file's end where that comes first.
    fn within(&self, file: u64, at: u64) -> u64
        ensures { result ≤ length (file_of (disk_state self.now.host) file).bytes }
    {
        at.min(self.host.file(file).len() as u64)
    }
}

impl Disk for Untold {
    ghost disk = { λ u. silent (disk_state u.host) };

    ghost read_may_be_left = { λ u file tells. absurd (true≢false (sym tells)) };

    fn read(&mut self, file: u64, at: u64, out: &mut [u8]) -> Result<usize, DiskFault> {
        self.host.read(file, at, out)
    }

    fn write_at(&mut self, file: u64, at: u64, bytes: &[u8]) -> Result<(), DiskFault> {
        let at = self.within(file, at);
        self.host.write_at(file, at, bytes)
    }

    fn cut(&mut self, file: u64, length: u64) -> Result<(), DiskFault> {
        let length = self.within(file, length);
        self.host.cut(file, length)
    }

    fn sync(&mut self, file: u64) -> Result<(), DiskFault> {
        self.host.sync(file)
    }

    fn length(&mut self, file: u64) -> Result<u64, DiskFault> {
        self.host.length(file)
    }
}
