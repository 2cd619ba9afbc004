//! A disk of numbered files, and a host: a disk with an output.
ghost use Rattle.std.specs.Prelude.{◌≡◌, ◌≤◌, ◌<◌, ◌-◌, ℕ, length, min, take, drop, [], IfOk, OnOk, OnErr};
ghost use Rattle.mr_base.specs.Disk.{State, Tells, file_of, MayLeave, IsAtRest, write_begun, cut_begun, overwrite, HasRisen};
ghost use Rattle.mr_base.specs.Calls.{Same, Changes, Settles, Emits, EmitCounts, Counts};

use crate::stop::{DiskFault, EmitFault};

/// A disk of files that are named by numbers. A file that was never written has length 0.
///
/// Between two syncs of a file each written range, and each byte past the least length since the last sync, may hold any
/// bytes after a crash, and the length is any between the least and the greatest since then. A call that fails may have
/// been done in part, in the same sense. A call on one file leaves the others as they are.
///
/// Whether a disk tells its contents is changed by no call. Counts and causes hold also of a disk that doesn't tell.
pub trait Disk {
    ghost disk: { Self → State };

    /// Reads the file from a place on into the front of `out`, and answers how many bytes: the lesser of what `out` holds
    /// and what the file has there. The rest of `out` is left in no known state.
    fn read(&mut self, file: u64, at: u64, out: &mut [u8]) -> Result<usize, DiskFault>
        ensures counts { Counts 1 (length out.old) 0 (disk self.old) (disk self.new) }
        ensures cause { OnErr result (HasRisen (disk self.old).faults (disk self.new).faults) }
        ensures fits { IfOk result (λ n. n ≤ length out.old) }
        ensures same { Tells (disk self.old) → Same (disk self.old) (disk self.new) }
        ensures count { Tells (disk self.old) → IfOk result (λ n. n ≡ min (length out.old) (length (file_of (disk self.old) file).bytes - at)) }
        ensures bytes { Tells (disk self.old) → IfOk result (λ n. take n out.new ≡ take n (drop at (file_of (disk self.old) file).bytes)) };

    /// Writes over what is there, and past the end.
    fn write_at(&mut self, file: u64, at: u64, bytes: &[u8]) -> Result<(), DiskFault>
        requires { Tells (disk self.old) → at ≤ length (file_of (disk self.old) file).bytes }
        ensures counts { Counts 0 0 0 (disk self.old) (disk self.new) }
        ensures cause { OnErr result (HasRisen (disk self.old).faults (disk self.new).faults) }
        ensures written { Tells (disk self.old) → OnOk result ((file_of (disk self.new) file).bytes ≡ overwrite at bytes.now (file_of (disk self.old) file).bytes) }
        ensures changes { Tells (disk self.old) → Changes file (write_begun at (length bytes.now)) (disk self.old) (disk self.new) };

    /// Cuts the file to a length.
    fn cut(&mut self, file: u64, length: u64) -> Result<(), DiskFault>
        requires { Tells (disk self.old) → length ≤ Rattle.std.specs.Prelude.length (file_of (disk self.old) file).bytes }
        ensures counts { Counts 0 0 0 (disk self.old) (disk self.new) }
        ensures cause { OnErr result (HasRisen (disk self.old).faults (disk self.new).faults) }
        ensures cut { Tells (disk self.old) → OnOk result ((file_of (disk self.new) file).bytes ≡ take length (file_of (disk self.old) file).bytes) }
        ensures changes { Tells (disk self.old) → Changes file (cut_begun length) (disk self.old) (disk self.new) };

    /// After it, a crash leaves of the file just what a read gives.
    fn sync(&mut self, file: u64) -> Result<(), DiskFault>
        ensures counts { Counts 0 0 1 (disk self.old) (disk self.new) }
        ensures cause { OnErr result (HasRisen (disk self.old).faults (disk self.new).faults) }
        ensures seen { Tells (disk self.old) → (file_of (disk self.new) file).bytes ≡ (file_of (disk self.old) file).bytes }
        ensures durable { Tells (disk self.old) → OnOk result (IsAtRest (file_of (disk self.new) file)) }
        ensures settles { Tells (disk self.old) → Settles file (disk self.old) (disk self.new) };

    /// The file's length in bytes.
    fn length(&mut self, file: u64) -> Result<u64, DiskFault>
        ensures counts { Counts 0 0 0 (disk self.old) (disk self.new) }
        ensures cause { OnErr result (HasRisen (disk self.old).faults (disk self.new).faults) }
        ensures same { Tells (disk self.old) → Same (disk self.old) (disk self.new) }
        ensures length { Tells (disk self.old) → IfOk result (λ n. n ≡ length (file_of (disk self.old) file).bytes) };

    /// What a read gives is one of the images that a crash may leave.
    ghost read_may_be_left: { (d : Self) (file : ℕ) → Tells (disk d) → MayLeave (file_of (disk d) file) (file_of (disk d) file).bytes };
}

/// A disk with an output, which a crash leaves as far as it was emitted.
pub trait Host: Disk {
    /// Appends a front of the piece to the output and answers its length, at least 1 where the piece isn't empty. A fault
    /// appends nothing.
    fn emit(&mut self, piece: &[u8]) -> Result<usize, EmitFault>
        ensures counts { EmitCounts (Self.disk self.old) (Self.disk self.new) }
        ensures cause { OnErr result (HasRisen (Self.disk self.old).emit_faults (Self.disk self.new).emit_faults) }
        ensures fits { IfOk result (λ n. n ≤ length piece.now) }
        ensures some { 0 < length piece.now → IfOk result (λ n. 0 < n) }
        ensures appended { Tells (Self.disk self.old) → IfOk result (λ n. Emits (take n piece.now) (Self.disk self.old) (Self.disk self.new)) }
        ensures nothing { Tells (Self.disk self.old) → OnErr result (Emits [] (Self.disk self.old) (Self.disk self.new)) };
}
