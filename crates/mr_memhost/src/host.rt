//! A host in memory.
ghost use Rattle.std.specs.Prelude.{◌≡◌, ◌++◌, ◌==◌, ◌+◌, ◌-◌, ◌^◌, min, ℕ, [], if◌then◌else◌, length, OnOk, OnErr};

use crate::counts::Counts;
use crate::journal::Journal;
use mr_base::{DiskFault, EmitFault, Memory};
use std::alloc::Global;

/// A host in memory: numbered files and an output, with calls that can be made to fail, and a crash.
///
/// It keeps a record of its calls, and counts its own want of memory as a fault.
#[derive(Drop)]
pub struct MemHost {
    pub(crate) journal: Journal,
    pub(crate) counts: Counts,
    /// The numbers of calls that fail, counted from 1 over all calls of the disk and of `emit`.
    pub(crate) failing: Vec<u64>,
    /// All calls after so many fail.
    pub(crate) stop: Option<u64>,
    ghost started: { counts.calls ≡ 0 → length journal.steps.items ≡ 0 },
}

impl MemHost {
    ghost use Rattle.mr_base.specs.Disk.{file_of, present, at_rest};
    ghost use Rattle.mr_memhost.specs.Host.{IsFresh, IsSameDisk, plan, disk_state, is_due, raised, called};

    /// Empty in files, output and counts.
    pub fn new(alloc: Global) -> MemHost
        ensures fresh { IsFresh result }
        ensures files { (file : ℕ) → file_of (disk_state result) file ≡ at_rest [] }
        ensures output { (present (disk_state result)).output ≡ [] }
    {
        MemHost {
            journal: Journal::new(alloc),
            counts: Counts::zero(),
            failing: Vec::new(alloc),
            stop: None,
        }
    }

    /// Makes these the file's whole bytes, which are on the disk. A refusal changes nothing.
    pub fn add_file(&mut self, file: u64, bytes: &[u8]) -> Result<(), Memory>
        requires { (plan self.old).calls ≡ 0 }
        ensures ok { OnOk result ((f : ℕ) → file_of (disk_state self.new) f ≡ (if f == file then at_rest bytes.now else file_of (disk_state self.old) f)) }
        ensures err { OnErr result (disk_state self.new ≡ disk_state self.old) }
        ensures output { (present (disk_state self.new)).output ≡ (present (disk_state self.old)).output }
        ensures same { (plan self.new ≡ plan self.old) × (self.new.counts ≡ self.old.counts) }
    {
        self.journal.add(file, bytes)
    }

    /// Lets the calls of these numbers fail too, counted from 1 over all calls of the disk and of `emit`. A refusal changes
    /// nothing.
    pub fn fail_calls(&mut self, calls: &[u64]) -> Result<(), Memory>
        ensures ok { OnOk result ((plan self.new).failing ≡ (plan self.old).failing ++ calls.now) }
        ensures err { OnErr result ((plan self.new).failing ≡ (plan self.old).failing) }
        ensures stop { (plan self.new).stop ≡ (plan self.old).stop }
        ensures same { IsSameDisk self.old self.new }
    {
        self.failing.extend_from_slice(calls)?;
        Ok(())
    }

    /// Lets all calls after so many fail.
    pub fn stop_after(&mut self, calls: u64)
        ensures stop { (plan self.new).stop ≡ Some calls }
        ensures failing { (plan self.new).failing ≡ (plan self.old).failing }
        ensures same { IsSameDisk self.old self.new }
    {
        self.stop = Some(calls);
    }

    pub fn output(&self) -> &[u8]
        ensures { result.now ≡ (present (disk_state self.now)).output }
    {
        self.journal.output()
    }

    /// What a read gives of a file.
    pub fn file(&self, file: u64) -> &[u8]
        ensures { result.now ≡ (file_of (disk_state self.now) file).bytes }
    {
        self.journal.bytes(file)
    }

    /// How many calls of the disk and of `emit` were made.
    pub fn calls(&self) -> u64
        ensures { result ≡ (plan self.now).calls }
    {
        self.counts.calls
    }

    pub fn faults(&self) -> u64
        ensures { result ≡ (disk_state self.now).faults }
    {
        self.counts.faults
    }

    pub fn emit_faults(&self) -> u64
        ensures { result ≡ (disk_state self.now).emit_faults }
    {
        self.counts.emit_faults
    }

    pub fn reads(&self) -> u64
        ensures { result ≡ (disk_state self.now).reads }
    {
        self.counts.reads
    }

    /// The sum of the lengths of the buffers that were passed to `read`.
    pub fn asked(&self) -> u64
        ensures { result ≡ (disk_state self.now).asked }
    {
        self.counts.asked
    }

    pub fn syncs(&self) -> u64
        ensures { result ≡ (disk_state self.now).syncs }
    {
        self.counts.syncs
    }

    /// Counts a call, and answers whether it is to fail.
    pub(crate) fn refuses(&mut self) -> bool
        ensures due { result ≡ is_due (plan self.old) }
        ensures plan { plan self.new ≡ called (plan self.old) }
        ensures journal { self.new.journal ≡ self.old.journal }
        ensures counts { self.new.counts ≡ record { calls = raised 1 self.old.counts.calls; faults = self.old.counts.faults; emit_faults = self.old.counts.emit_faults; reads = self.old.counts.reads; asked = self.old.counts.asked; syncs = self.old.counts.syncs } }
    {
        self.counts.calls = self.counts.calls.saturating_add(1);
        let is_past = match self.stop {
            Some(last) => last < self.counts.calls,
            None => false,
        };
        is_past || self.failing.contains(&self.counts.calls)
    }

    pub(crate) fn fail(&mut self) -> DiskFault
        ensures plan { plan self.new ≡ plan self.old }
        ensures journal { self.new.journal ≡ self.old.journal }
        ensures counts { self.new.counts ≡ record { calls = self.old.counts.calls; faults = raised 1 self.old.counts.faults; emit_faults = self.old.counts.emit_faults; reads = self.old.counts.reads; asked = self.old.counts.asked; syncs = self.old.counts.syncs } }
    {
        self.counts.faults = self.counts.faults.saturating_add(1);
        DiskFault
    }

    pub(crate) fn fail_to_emit(&mut self) -> EmitFault
        ensures plan { plan self.new ≡ plan self.old }
        ensures journal { self.new.journal ≡ self.old.journal }
        ensures counts { self.new.counts ≡ record { calls = self.old.counts.calls; faults = self.old.counts.faults; emit_faults = raised 1 self.old.counts.emit_faults; reads = self.old.counts.reads; asked = self.old.counts.asked; syncs = self.old.counts.syncs } }
    {
        self.counts.emit_faults = self.counts.emit_faults.saturating_add(1);
        EmitFault
    }
}
