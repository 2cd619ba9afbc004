//! The calls of a host in memory.
ghost use Rattle.std.specs.Prelude.{◌≡◌, ◌≤◌, ◌<◌, ◌-◌, ◌↔◌, ℕ, IsTrue, IsErr, is_err, length, min, take, drop, [], IfOk, OnOk, OnErr};
ghost use Rattle.mr_base.specs.Disk.{Tells, file_of, IsAtRest, write_begun, cut_begun, overwrite, HasRisen};
ghost use Rattle.mr_base.specs.Calls.{Same, Changes, Settles, Emits, EmitCounts, Counts};

use crate::host::MemHost;
use mr_base::{Disk, DiskFault, EmitFault, Host};

impl Disk for MemHost {
    ghost use Rattle.mr_memhost.specs.Host.{disk_state, read_left, plan, is_due, Counted};

    ghost disk = { disk_state };

    ghost read_may_be_left = { λ host file tells. read_left host file };

    /// Fails exactly where the call is listed or stopped.
    fn read(&mut self, file: u64, at: u64, out: &mut [u8]) -> Result<usize, DiskFault>
        ensures counts { Counts 1 (length out.old) 0 (disk_state self.old) (disk_state self.new) }
        ensures cause { OnErr result (HasRisen (disk_state self.old).faults (disk_state self.new).faults) }
        ensures fits { IfOk result (λ n. n ≤ length out.old) }
        ensures same { Tells (disk_state self.old) → Same (disk_state self.old) (disk_state self.new) }
        ensures count { Tells (disk_state self.old) → IfOk result (λ n. n ≡ min (length out.old) (length (file_of (disk_state self.old) file).bytes - at)) }
        ensures bytes { Tells (disk_state self.old) → IfOk result (λ n. take n out.new ≡ take n (drop at (file_of (disk_state self.old) file).bytes)) }
        ensures due { is_err result ≡ is_due (plan self.old) }
        ensures counted { Counted 1 (length out.old) 0 (is_err result) self.old self.new }
    {
        self.counts.reads = self.counts.reads.saturating_add(1);
        self.counts.asked = self.counts.asked.saturating_add(out.len() as u64);
        if self.refuses() {
            return Err(self.fail());
        }
        let bytes = self.journal.bytes(file);
        let from = bytes.len().min(at as usize);
        let count = out.len().min(bytes.len() - from);
        out[..count].copy_from_slice(&bytes[from..from + count]);
        Ok(count)
    }

    /// Fails where the call is listed or stopped, and for want of memory.
    fn write_at(&mut self, file: u64, at: u64, bytes: &[u8]) -> Result<(), DiskFault>
        requires { Tells (disk_state self.old) → at ≤ length (file_of (disk_state self.old) file).bytes }
        ensures counts { Counts 0 0 0 (disk_state self.old) (disk_state self.new) }
        ensures cause { OnErr result (HasRisen (disk_state self.old).faults (disk_state self.new).faults) }
        ensures written { Tells (disk_state self.old) → OnOk result ((file_of (disk_state self.new) file).bytes ≡ overwrite at bytes.now (file_of (disk_state self.old) file).bytes) }
        ensures changes { Tells (disk_state self.old) → Changes file (write_begun at (length bytes.now)) (disk_state self.old) (disk_state self.new) }
        ensures due { IsTrue (is_due (plan self.old)) → IsErr result }
        ensures counted { Counted 0 0 0 (is_err result) self.old self.new }
    {
        if self.refuses() {
            return Err(self.fail());
        }
        match self.journal.write(file, at, bytes) {
            Ok(()) => Ok(()),
            Err(_) => Err(self.fail()),
        }
    }

    /// Fails where the call is listed or stopped, and for want of memory.
    fn cut(&mut self, file: u64, to: u64) -> Result<(), DiskFault>
        requires { Tells (disk_state self.old) → to ≤ length (file_of (disk_state self.old) file).bytes }
        ensures counts { Counts 0 0 0 (disk_state self.old) (disk_state self.new) }
        ensures cause { OnErr result (HasRisen (disk_state self.old).faults (disk_state self.new).faults) }
        ensures cut { Tells (disk_state self.old) → OnOk result ((file_of (disk_state self.new) file).bytes ≡ take to (file_of (disk_state self.old) file).bytes) }
        ensures changes { Tells (disk_state self.old) → Changes file (cut_begun to) (disk_state self.old) (disk_state self.new) }
        ensures due { IsTrue (is_due (plan self.old)) → IsErr result }
        ensures counted { Counted 0 0 0 (is_err result) self.old self.new }
    {
        if self.refuses() {
            return Err(self.fail());
        }
        match self.journal.cut(file, to) {
            Ok(()) => Ok(()),
            Err(_) => Err(self.fail()),
        }
    }

    /// Fails where the call is listed or stopped, and for want of memory.
    fn sync(&mut self, file: u64) -> Result<(), DiskFault>
        ensures counts { Counts 0 0 1 (disk_state self.old) (disk_state self.new) }
        ensures cause { OnErr result (HasRisen (disk_state self.old).faults (disk_state self.new).faults) }
        ensures seen { Tells (disk_state self.old) → (file_of (disk_state self.new) file).bytes ≡ (file_of (disk_state self.old) file).bytes }
        ensures durable { Tells (disk_state self.old) → OnOk result (IsAtRest (file_of (disk_state self.new) file)) }
        ensures settles { Tells (disk_state self.old) → Settles file (disk_state self.old) (disk_state self.new) }
        ensures due { IsTrue (is_due (plan self.old)) → IsErr result }
        ensures counted { Counted 0 0 1 (is_err result) self.old self.new }
    {
        self.counts.syncs = self.counts.syncs.saturating_add(1);
        if self.refuses() {
            return Err(self.fail());
        }
        match self.journal.sync(file) {
            Ok(()) => Ok(()),
            Err(_) => Err(self.fail()),
        }
    }

    /// Fails exactly where the call is listed or stopped.
    fn length(&mut self, file: u64) -> Result<u64, DiskFault>
        ensures counts { Counts 0 0 0 (disk_state self.old) (disk_state self.new) }
        ensures cause { OnErr result (HasRisen (disk_state self.old).faults (disk_state self.new).faults) }
        ensures same { Tells (disk_state self.old) → Same (disk_state self.old) (disk_state self.new) }
        ensures length { Tells (disk_state self.old) → IfOk result (λ n. n ≡ length (file_of (disk_state self.old) file).bytes) }
        ensures due { is_err result ≡ is_due (plan self.old) }
        ensures counted { Counted 0 0 0 (is_err result) self.old self.new }
    {
        if self.refuses() {
            return Err(self.fail());
        }
        Ok(self.journal.bytes(file).len() as u64)
    }
}

impl Host for MemHost {
    ghost use Rattle.mr_memhost.specs.Host.{disk_state, plan, is_due, EmitCounted};

    /// Takes the whole piece. Fails where the call is listed or stopped, and for want of memory.
    fn emit(&mut self, piece: &[u8]) -> Result<usize, EmitFault>
        ensures counts { EmitCounts (disk_state self.old) (disk_state self.new) }
        ensures cause { OnErr result (HasRisen (disk_state self.old).emit_faults (disk_state self.new).emit_faults) }
        ensures fits { IfOk result (λ n. n ≤ length piece.now) }
        ensures some { 0 < length piece.now → IfOk result (λ n. 0 < n) }
        ensures appended { Tells (disk_state self.old) → IfOk result (λ n. Emits (take n piece.now) (disk_state self.old) (disk_state self.new)) }
        ensures nothing { Tells (disk_state self.old) → OnErr result (Emits [] (disk_state self.old) (disk_state self.new)) }
        ensures whole { IfOk result (λ n. n ≡ length piece.now) }
        ensures due { IsTrue (is_due (plan self.old)) → IsErr result }
        ensures counted { EmitCounted (is_err result) self.old self.new }
    {
        if self.refuses() {
            return Err(self.fail_to_emit());
        }
        match self.journal.emit(piece) {
            Ok(()) => Ok(piece.len()),
            Err(_) => Err(self.fail_to_emit()),
        }
    }
}
