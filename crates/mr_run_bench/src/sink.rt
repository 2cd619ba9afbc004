//! A disk in memory.
ghost use Rattle.std.specs.Prelude.{false, []};
ghost use mathlib.Core.Bool.{true≢false};
ghost use Rattle.std.proofs.Common.{sym};
ghost use Rattle.mr_base.specs.Disk.{at_rest};

use mr_base::{Disk, DiskFault};

/// A disk of one file, which keeps what is written one piece behind the other, and tells nothing of it.
#[derive(Drop)]
pub struct Sink {
    pub bytes: Vec<u8>,
    pub faults: u64,
    pub syncs: u64,
}

impl Disk for Sink {
    ghost disk = { λ b. record { tells = false; moments = λ k. record { files = λ f. at_rest []; output = [] }; now = 0; faults = b.faults; emit_faults = 0; reads = 0; asked = 0; syncs = b.syncs } };

    ghost read_may_be_left = { λ b file tells. absurd (true≢false (sym tells)) };

    fn read(&mut self, _: u64, at: u64, out: &mut [u8]) -> Result<usize, DiskFault> {
        let from = self.bytes.len().min(at as usize);
        let count = out.len().min(self.bytes.len() - from);
        out[..count].copy_from_slice(&self.bytes[from..from + count]);
        Ok(count)
    }

    fn write_at(&mut self, _: u64, _: u64, bytes: &[u8]) -> Result<(), DiskFault> {
        match self.bytes.extend_from_slice(bytes) {
            Ok(()) => Ok(()),
            Err(_) => {
                self.faults = self.faults.saturating_add(1);
                Err(DiskFault)
            }
        }
    }

    fn cut(&mut self, _: u64, _: u64) -> Result<(), DiskFault> {
        self.bytes.clear();
        Ok(())
    }

    fn sync(&mut self, _: u64) -> Result<(), DiskFault> {
        self.syncs = self.syncs.saturating_add(1);
        Ok(())
    }

    fn length(&mut self, _: u64) -> Result<u64, DiskFault> {
        Ok(self.bytes.len() as u64)
    }
}
