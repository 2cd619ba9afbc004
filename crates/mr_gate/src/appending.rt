//! A record is written behind a closed gate; the gate is opened once the record is on the disk.
ghost use Rattle.std.specs.Prelude.{◌≡◌, ◌≤◌, ◌<◌, ◌+◌, ◌^◌, ◌++◌, [], ◌∷◌, length, take, drop, OnOk, OnErr};
ghost use Rattle.std.specs.Int.{w32, to_be_bytes};
ghost use Rattle.mr_base.specs.Disk.{Tells, present, file_of, IsAtRest, HasRisen};
ghost use Rattle.mr_base.specs.Calls.{During, OneFile, Counts};
ghost use Rattle.mr_gate.specs.Log.{record_bytes};
ghost use Rattle.mr_gate.specs.Gate.{IsBeforeOrAfter, IsAfter};

use crate::frame::{CLOSED, OPEN, set_gate};
use mr_base::{Disk, DiskFault};

/// Writes a record behind the gate at its place, which stays closed.
fn stage<D: Disk>(disk: &mut D, file: u64, place: u64, body: &[u8]) -> Result<(), DiskFault>
    requires fits { place + 6 + length body.now < 2 ^ 64 }
    requires short { length body.now ≤ 2 ^ 29 }
    requires closed { Tells (D.disk disk.old) → drop place (file_of (D.disk disk.old) file).bytes ≡ 0 ∷ [] }
    ensures counts { Counts 0 0 1 (D.disk disk.old) (D.disk disk.new) }
    ensures cause { OnErr result (HasRisen (D.disk disk.old).faults (D.disk disk.new).faults) }
    ensures any_moment { Tells (D.disk disk.old) → During (D.disk disk.old) (D.disk disk.new) (OneFile file (present (D.disk disk.old))
        (λ c. IsAtRest (file_of (D.disk disk.old) file) → take (place + 1) c ≡ (file_of (D.disk disk.old) file).bytes)) }
    ensures staged { Tells (D.disk disk.old) → OnOk result ((file_of (D.disk disk.new) file).bytes
        ≡ (file_of (D.disk disk.old) file).bytes ++ to_be_bytes w32 (length body.now) ++ body.now ++ 0 ∷ []) }
    ensures durable { Tells (D.disk disk.old) → OnOk result (IsAtRest (file_of (D.disk disk.new) file)) }
{
    let size = body.len() as u32;
    disk.write_at(file, place + 1, &size.to_be_bytes())?;
    disk.write_at(file, place + 5, body)?;
    disk.write_at(file, place + 5 + body.len() as u64, &[CLOSED])?;
    disk.sync(file)
}

/// Adds a record at the place where a closed gate stands alone.
pub(crate) fn add<D: Disk>(
    disk: &mut D,
    file: u64,
    place: u64,
    body: &[u8],
) -> Result<(), DiskFault>
    requires fits { place + 6 + length body.now < 2 ^ 64 }
    requires short { length body.now ≤ 2 ^ 29 }
    requires closed { Tells (D.disk disk.old) → drop place (file_of (D.disk disk.old) file).bytes ≡ 0 ∷ [] }
    ensures counts { Counts 0 0 2 (D.disk disk.old) (D.disk disk.new) }
    ensures cause { OnErr result (HasRisen (D.disk disk.old).faults (D.disk disk.new).faults) }
    ensures any_moment { Tells (D.disk disk.old) → During (D.disk disk.old) (D.disk disk.new) (OneFile file (present (D.disk disk.old))
        (λ c. IsAtRest (file_of (D.disk disk.old) file) → IsBeforeOrAfter place body.now (file_of (D.disk disk.old) file).bytes c)) }
    ensures added { Tells (D.disk disk.old) → OnOk result (IsAfter place body.now (file_of (D.disk disk.old) file).bytes (file_of (D.disk disk.new) file).bytes) }
    ensures bytes { Tells (D.disk disk.old) → OnOk result ((file_of (D.disk disk.new) file).bytes
        ≡ take place (file_of (D.disk disk.old) file).bytes ++ record_bytes body.now ++ 0 ∷ []) }
    ensures ends { Tells (D.disk disk.old) → OnOk result (drop (place + (5 + length body.now)) (file_of (D.disk disk.new) file).bytes ≡ 0 ∷ []) }
    ensures durable { Tells (D.disk disk.old) → OnOk result (IsAtRest (file_of (D.disk disk.new) file)) }
{
    stage(disk, file, place, body)?;
    set_gate(disk, file, place, OPEN)
}
