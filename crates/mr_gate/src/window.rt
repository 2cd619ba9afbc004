//! A window of a file's bytes, which a walk over its records keeps from record to record.
ghost use Rattle.std.specs.Prelude.{◌≡◌, ◌≤◌, ◌<◌, ◌+◌, ◌-◌, ◌^◌, length, get_or, take, drop, IfOk, OnOk, OnErr, IfErr, IfSome, IsSomeAnd, ◌⊎◌};
ghost use Rattle.mr_base.specs.Disk.{Tells, file_of, HasRisen};
ghost use Rattle.mr_base.specs.Calls.{Same, Counts};
ghost use Rattle.mr_gate.specs.Log.{size_of};
ghost use Rattle.mr_gate.specs.Gate.{IsUntouched};
ghost use Rattle.mr_gate.specs.Walking.{IsHeld, IsPaid};

use crate::frame::HEAD;
use crate::reading::bytes_at;
use mr_base::{Blob, Disk, DiskFault, Stop};
use std::alloc::Global;
use std::marker::Model;

/// How many bytes a window has. With the four that the end of a log may cost besides they are 65,536.
pub(crate) const WINDOW: u64 = 65_532;

/// The bytes of a file from a place on.
#[derive(Drop)]
pub(crate) struct Window {
    start: u64,
    bytes: Vec<u8>,
}

impl Model for Window {
    ghost use Rattle.std.specs.Prelude.{◌≡◌, length};
    ghost use Rattle.mr_gate.specs.Walking.{Held};

    ghost Value = { Held };

    ghost view = { λ w. record { start = w.start; bytes = w.bytes.items } };

    ghost invariant = { λ w. length w.bytes.items ≡ 65532 };
}

/// The gate in front of these bytes, and the length that stands behind it.
fn head_in(bytes: &[u8]) -> (u8, u32)
    requires { 5 ≤ length bytes.now }
    ensures gate { result.0 ≡ get_or bytes.now 0 0 }
    ensures size { result.1 ≡ size_of (drop 1 bytes.now) }
{
    let size = u32::from_be_bytes([bytes[1], bytes[2], bytes[3], bytes[4]]);
    (bytes[0], size)
}

impl Window {
    /// The window that begins at a place.
    pub(crate) fn load<D: Disk>(
        alloc: Global,
        disk: &mut D,
        file: u64,
        start: u64,
    ) -> Result<Window, Stop>
        ensures counts { Counts 1 65532 0 (D.disk disk.old) (D.disk disk.new) }
        ensures cause { result ≡ Err Stop.Disk → HasRisen (D.disk disk.old).faults (D.disk disk.new).faults }
        ensures err { IfErr result (λ e. (e ≡ Stop.Disk) ⊎ (e ≡ Stop.Memory)) }
        ensures same { Tells (D.disk disk.old) → Same (D.disk disk.old) (D.disk disk.new) }
        ensures start { IfOk result (λ w. w.start ≡ start) }
        ensures held { Tells (D.disk disk.old) → IfOk result (λ w. IsHeld w (file_of (D.disk disk.old) file).bytes) }
    {
        let bytes = vec![in alloc; 0u8; WINDOW as usize]?;
        let mut window = Window { start, bytes };
        window.fill(disk, file, start)?;
        Ok(window)
    }

    /// Moves it to a place.
    fn fill<D: Disk>(&mut self, disk: &mut D, file: u64, start: u64) -> Result<(), DiskFault>
        ensures counts { Counts 1 65532 0 (D.disk disk.old) (D.disk disk.new) }
        ensures cause { OnErr result (HasRisen (D.disk disk.old).faults (D.disk disk.new).faults) }
        ensures same { Tells (D.disk disk.old) → Same (D.disk disk.old) (D.disk disk.new) }
        ensures start { self.new.start ≡ start }
        ensures held { Tells (D.disk disk.old) → OnOk result (IsHeld self.new (file_of (D.disk disk.old) file).bytes) }
    {
        self.start = start;
        disk.read(file, start, &mut self.bytes)?;
        Ok(())
    }

    /// Holds so many bytes from a place on: it is moved there unless it has them already.
    fn hold<D: Disk>(
        &mut self,
        disk: &mut D,
        file: u64,
        at: u64,
        count: u64,
    ) -> Result<(), DiskFault>
        requires ahead { self.old.start ≤ at }
        requires some { 0 < count }
        requires few { count ≤ 65532 }
        ensures counts { Counts 1 65532 0 (D.disk disk.old) (D.disk disk.new) }
        ensures cause { OnErr result (HasRisen (D.disk disk.old).faults (D.disk disk.new).faults) }
        ensures same { Tells (D.disk disk.old) → Same (D.disk disk.old) (D.disk disk.new) }
        ensures reaches { (self.new.start ≤ at) × (at + count ≤ self.new.start + 65532) }
        ensures moved { self.old.start + 65532 < at + count → self.new.start ≡ at }
        ensures stays { at + count ≤ self.old.start + 65532 → (self.new ≡ self.old) × (D.disk disk.new ≡ D.disk disk.old) }
        ensures paid { IsPaid (self.old.start + 1) (self.new.start + count) (D.disk disk.old) (D.disk disk.new) }
        ensures held { Tells (D.disk disk.old) → IsHeld self.old (file_of (D.disk disk.old) file).bytes
            → OnOk result (IsHeld self.new (file_of (D.disk disk.old) file).bytes) }
    {
        if at - self.start <= WINDOW - count {
            return Ok(());
        }
        self.fill(disk, file, at)
    }

    /// Its bytes from a place on.
    fn from(&self, at: u64) -> &[u8]
        requires ahead { self.now.start ≤ at }
        requires inside { at ≤ self.now.start + 65532 }
        ensures bytes { result.now ≡ drop (at - self.now.start) self.now.bytes }
        ensures long { length result.now + (at - self.now.start) ≡ 65532 }
    {
        &self.bytes[(at - self.start) as usize..]
    }

    /// The gate at a place, and the length that stands behind it.
    pub(crate) fn head<D: Disk>(
        &mut self,
        disk: &mut D,
        file: u64,
        at: u64,
    ) -> Result<(u8, u32), DiskFault>
        requires ahead { self.old.start ≤ at }
        ensures counts { Counts 1 65532 0 (D.disk disk.old) (D.disk disk.new) }
        ensures cause { OnErr result (HasRisen (D.disk disk.old).faults (D.disk disk.new).faults) }
        ensures same { Tells (D.disk disk.old) → Same (D.disk disk.old) (D.disk disk.new) }
        ensures reaches { (self.new.start ≤ at) × (at + 5 ≤ self.new.start + 65532) }
        ensures moved { self.old.start + 65532 < at + 5 → self.new.start ≡ at }
        ensures stays { at + 5 ≤ self.old.start + 65532 → (self.new ≡ self.old) × (D.disk disk.new ≡ D.disk disk.old) }
        ensures paid { IsPaid (self.old.start + 1) (self.new.start + 5) (D.disk disk.old) (D.disk disk.new) }
        ensures held { Tells (D.disk disk.old) → IsHeld self.old (file_of (D.disk disk.old) file).bytes
            → OnOk result (IsHeld self.new (file_of (D.disk disk.old) file).bytes) }
        ensures gate { Tells (D.disk disk.old) → IsHeld self.old (file_of (D.disk disk.old) file).bytes → at < length (file_of (D.disk disk.old) file).bytes
            → IfOk result (λ h. h.0 ≡ get_or (file_of (D.disk disk.old) file).bytes at 0) }
        ensures size { Tells (D.disk disk.old) → IsHeld self.old (file_of (D.disk disk.old) file).bytes → at + 5 ≤ length (file_of (D.disk disk.old) file).bytes
            → IfOk result (λ h. h.1 ≡ size_of (drop (at + 1) (file_of (D.disk disk.old) file).bytes)) }
    {
        self.hold(disk, file, at, HEAD)?;
        Ok(head_in(self.from(at)))
    }

    /// The body of the record at a place, whose head it holds. None comes where the file is too short.
    pub(crate) fn body<D: Disk>(
        &mut self,
        alloc: Global,
        disk: &mut D,
        file: u64,
        at: u64,
        size: u32,
    ) -> Result<Option<Blob>, Stop>
        requires ahead { self.old.start ≤ at }
        requires head { at + 5 ≤ self.old.start + 65532 }
        requires fits { at + 5 + size < 2 ^ 64 }
        ensures counts { Counts 1 (65532 + size) 0 (D.disk disk.old) (D.disk disk.new) }
        ensures cause { result ≡ Err Stop.Disk → HasRisen (D.disk disk.old).faults (D.disk disk.new).faults }
        ensures err { IfErr result (λ e. (e ≡ Stop.Disk) ⊎ (e ≡ Stop.Memory)) }
        ensures same { Tells (D.disk disk.old) → Same (D.disk disk.old) (D.disk disk.new) }
        ensures ahead { self.new.start ≤ at }
        ensures long { IfOk result (λ o. IfSome o (λ b. length b ≡ size)) }
        // What is at the window's own place is there at once.
        ensures at_once { self.old.start ≡ at → size + 5 ≤ 65532 → (self.new ≡ self.old) × (D.disk disk.new ≡ D.disk disk.old) }
        ensures paid { IsPaid (self.old.start + 1) (self.new.start + (5 + size)) (D.disk disk.old) (D.disk disk.new) }
        ensures large { 65532 < size + 5 → (self.new ≡ self.old) × IsPaid self.old.start (self.new.start + size) (D.disk disk.old) (D.disk disk.new) }
        ensures held { Tells (D.disk disk.old) → IsHeld self.old (file_of (D.disk disk.old) file).bytes
            → OnOk result (IsHeld self.new (file_of (D.disk disk.old) file).bytes) }
        ensures read { Tells (D.disk disk.old) → IsHeld self.old (file_of (D.disk disk.old) file).bytes → at + 5 + size ≤ length (file_of (D.disk disk.old) file).bytes
            → IfOk result (λ o. IsSomeAnd o (λ b. b ≡ take size (drop (at + 5) (file_of (D.disk disk.old) file).bytes))) }
    {
        let taken = size as u64 + HEAD;
        if taken > WINDOW {
            let bytes = bytes_at(alloc, disk, file, at + HEAD, size as usize)?;
            return Ok(bytes.map(Blob::from_vec));
        }
        self.hold(disk, file, at, taken)?;
        let behind = self.from(at + HEAD);
        let body = Blob::from_slice(alloc, &behind[..size as usize])?;
        Ok(Some(body))
    }
}
