//! The layout of a record, and its gate.
//!
//!     place        the gate: 0xA7 is open, any other byte is closed
//!     place + 1    the length of the body, four bytes, the most significant one first; at most 2^29
//!     place + 5    the body
//!     behind it    the next record's gate
//!
//! The records end at a closed gate, at an open one that is the file's last byte, and at place 0 of an empty file.
ghost use Rattle.std.specs.Prelude.{◌≡◌, ◌≤◌, ◌<◌, ◌+◌, [], ◌∷◌, length, get_or, drop, IfOk, OnOk, OnErr};
ghost use Rattle.mr_base.specs.Disk.{Tells, present, file_of, IsAtRest, Torn, overwrite, HasRisen};
ghost use Rattle.mr_base.specs.Calls.{Same, During, OneFile, Counts};
ghost use Rattle.mr_gate.specs.Log.{size_of};

use mr_base::{Disk, DiskFault};

pub(crate) const OPEN: u8 = 0xA7;

pub(crate) const CLOSED: u8 = 0;

/// The greatest length of a body.
pub(crate) const MAX_BODY: u32 = 1 << 29;

/// What a record has in front of its body, in bytes.
pub(crate) const HEAD: u64 = 5;

/// The gate at a place, and the length that stands behind it.
pub(crate) fn head_at<D: Disk>(disk: &mut D, file: u64, place: u64) -> Result<(u8, u32), DiskFault>
    ensures counts { Counts 1 5 0 (D.disk disk.old) (D.disk disk.new) }
    ensures cause { OnErr result (HasRisen (D.disk disk.old).faults (D.disk disk.new).faults) }
    ensures same { Tells (D.disk disk.old) → Same (D.disk disk.old) (D.disk disk.new) }
    ensures gate { Tells (D.disk disk.old) → place < length (file_of (D.disk disk.old) file).bytes
        → IfOk result (λ h. h.0 ≡ get_or (file_of (D.disk disk.old) file).bytes place 0) }
    ensures size { Tells (D.disk disk.old) → place + 5 ≤ length (file_of (D.disk disk.old) file).bytes
        → IfOk result (λ h. h.1 ≡ size_of (drop (place + 1) (file_of (D.disk disk.old) file).bytes)) }
{
    let mut head = [0u8; 5];
    disk.read(file, place, &mut head)?;
    let [gate, a, b, c, d] = head;
    Ok((gate, u32::from_be_bytes([a, b, c, d])))
}

/// Writes a gate, and puts it on the disk.
pub(crate) fn set_gate<D: Disk>(
    disk: &mut D,
    file: u64,
    place: u64,
    gate: u8,
) -> Result<(), DiskFault>
    requires { Tells (D.disk disk.old) → place ≤ length (file_of (D.disk disk.old) file).bytes }
    ensures counts { Counts 0 0 1 (D.disk disk.old) (D.disk disk.new) }
    ensures cause { OnErr result (HasRisen (D.disk disk.old).faults (D.disk disk.new).faults) }
    ensures any_moment { Tells (D.disk disk.old) → During (D.disk disk.old) (D.disk disk.new) (OneFile file (present (D.disk disk.old))
        (λ c. IsAtRest (file_of (D.disk disk.old) file) → Torn place 1 (file_of (D.disk disk.old) file).bytes c)) }
    ensures written { Tells (D.disk disk.old) → OnOk result ((file_of (D.disk disk.new) file).bytes
        ≡ overwrite place (gate ∷ []) (file_of (D.disk disk.old) file).bytes) }
    ensures durable { Tells (D.disk disk.old) → OnOk result (IsAtRest (file_of (D.disk disk.new) file)) }
{
    disk.write_at(file, place, &[gate])?;
    disk.sync(file)
}
