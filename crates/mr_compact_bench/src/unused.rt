//! A disk that a merge in memory doesn't use.
ghost use Rattle.std.specs.Prelude.{[], false};
ghost use Rattle.std.proofs.Common.{sym};
ghost use mathlib.Core.Bool.{true≢false};
ghost use Rattle.mr_base.specs.Disk.{at_rest};

use mr_base::{Disk, DiskFault};

/// A disk that tells nothing and that no cursor over memory uses.
#[derive(Drop)]
pub struct Unused {
    pub faults: u64,
}

impl Disk for Unused {
    ghost disk = { λ b. record { tells = false; moments = λ k. record { files = λ f. at_rest []; output = [] }; now = 0; faults = b.faults; emit_faults = 0; reads = 0; asked = 0; syncs = 0 } };

    ghost read_may_be_left = { λ b file tells. absurd (true≢false (sym tells)) };

    fn read(&mut self, _: u64, _: u64, _: &mut [u8]) -> Result<usize, DiskFault> {
        self.faults = self.faults.saturating_add(1);
        Err(DiskFault)
    }

    fn write_at(&mut self, _: u64, _: u64, _: &[u8]) -> Result<(), DiskFault> {
        self.faults = self.faults.saturating_add(1);
        Err(DiskFault)
    }

    fn cut(&mut self, _: u64, _: u64) -> Result<(), DiskFault> {
        self.faults = self.faults.saturating_add(1);
        Err(DiskFault)
    }

    fn sync(&mut self, _: u64) -> Result<(), DiskFault> {
        self.faults = self.faults.saturating_add(1);
        Err(DiskFault)
    }

    fn length(&mut self, _: u64) -> Result<u64, DiskFault> {
        self.faults = self.faults.saturating_add(1);
        Err(DiskFault)
    }
}
