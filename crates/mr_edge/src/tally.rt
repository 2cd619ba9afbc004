//! What a host counts.
ghost use Rattle.std.specs.Prelude.{◌≡◌, ◌≤◌, ◌+◌, ◌^◌, ◌-◌, min, IfOk, IsOkAnd, OnOk, OnErr};
ghost use Rattle.mr_base.specs.Disk.{HasRisen};

use mr_base::{DiskFault, EmitFault};
use std::io;

/// Counts of calls and of errors, each of which stays at its greatest value once it is there.
#[derive(Clone, Copy, Debug, Default, PartialEq, Eq)]
pub(crate) struct Tally {
    pub(crate) faults: u64,
    pub(crate) emit_faults: u64,
    pub(crate) reads: u64,
    pub(crate) asked: u64,
    pub(crate) syncs: u64,
}

impl Tally {
    /// A read into so many bytes begins.
    pub(crate) fn read(&mut self, asked: usize)
        ensures rises { (self.old.reads ≤ self.new.reads) × (self.old.asked ≤ self.new.asked) }
        ensures count { self.new ≡ record self.old { reads = min (self.old.reads + 1) (2 ^ 64 - 1); asked = min (self.old.asked + asked) (2 ^ 64 - 1) } }
    {
        self.reads = self.reads.saturating_add(1);
        self.asked = self.asked.saturating_add(asked as u64);
    }

    /// A sync begins.
    pub(crate) fn sync(&mut self)
        ensures rises { self.old.syncs ≤ self.new.syncs }
        ensures count { self.new ≡ record self.old { syncs = min (self.old.syncs + 1) (2 ^ 64 - 1) } }
    {
        self.syncs = self.syncs.saturating_add(1);
    }

    /// A call on a file ended with this answer.
    pub(crate) fn ended<T: Drop>(&mut self, answer: io::Result<T>) -> Result<T, DiskFault>
        ensures value { IfOk result (λ value. IsOkAnd answer (λ given. value ≡ given)) }
        ensures others { self.new ≡ record self.old { faults = self.new.faults } }
        ensures done { OnOk result (self.new.faults ≡ self.old.faults) }
        ensures failed { OnErr result (self.new.faults ≡ min (self.old.faults + 1) (2 ^ 64 - 1)) }
        ensures later { self.old.faults ≤ self.new.faults }
        ensures cause { OnErr result (HasRisen self.old.faults self.new.faults) }
    {
        match answer {
            Ok(value) => Ok(value),
            Err(_) => {
                self.faults = self.faults.saturating_add(1);
                Err(DiskFault)
            }
        }
    }

    /// A write to the output failed.
    pub(crate) fn not_emitted(&mut self) -> EmitFault
        ensures count { self.new ≡ record self.old { emit_faults = min (self.old.emit_faults + 1) (2 ^ 64 - 1) } }
        ensures later { self.old.emit_faults ≤ self.new.emit_faults }
        ensures cause { HasRisen self.old.emit_faults self.new.emit_faults }
    {
        self.emit_faults = self.emit_faults.saturating_add(1);
        EmitFault
    }
}
