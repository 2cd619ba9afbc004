//! Where the records of a file end, and how the end is put in order.
ghost use Rattle.std.specs.Prelude.{◌≡◌, ◌≤◌, ◌<◌, ◌+◌, ◌*◌, ◌++◌, [], ◌∷◌, length, get_or, max, take, drop, IfOk, OnOk, OnErr, IfErr, ◌⊎◌};
ghost use Rattle.mr_base.specs.Disk.{Tells, present, file_of, IsAtRest, CutShort, HasRisen};
ghost use Rattle.mr_base.specs.Calls.{Same, During, OneFile, Counts, Rises, Reads};
ghost use Rattle.mr_gate.specs.Log.{records_from};
ghost use Rattle.mr_gate.specs.Gate.{KeepsLog, IsDamage, SaysDamage, OnlyReads};
ghost use Rattle.mr_gate.specs.Walked.{EndsAt, IsFound};

use crate::frame::{CLOSED, HEAD, MAX_BODY, OPEN, head_at, set_gate};
use mr_base::{Disk, DiskFault, Stop};

/// Where the records of a file end, how many there are, and the gate that stands there.
#[derive(Drop)]
pub(crate) struct Found {
    pub(crate) place: u64,
    pub(crate) records: u64,
    pub(crate) gate: u8,
}

/// Walks the records of a file of this length.
pub(crate) fn find_end<D: Disk>(
    disk: &mut D,
    file: u64,
    from: u64,
    length: u64,
) -> Result<Found, Stop>
    requires { Tells (D.disk disk.old) → length ≡ Rattle.std.specs.Prelude.length (file_of (D.disk disk.old) file).bytes }
    ensures rises { Rises 0 (D.disk disk.old) (D.disk disk.new) }
    ensures cause { result ≡ Err Stop.Disk → HasRisen (D.disk disk.old).faults (D.disk disk.new).faults }
    ensures same { Tells (D.disk disk.old) → Same (D.disk disk.old) (D.disk disk.new) }
    ensures reads { Tells (D.disk disk.old) → Reads
        (Rattle.std.specs.Prelude.length (records_from from (file_of (D.disk disk.old) file).bytes) + 1)
        (5 * (Rattle.std.specs.Prelude.length (records_from from (file_of (D.disk disk.old) file).bytes) + 1))
        (D.disk disk.old) (D.disk disk.new) }
    ensures fits { IfOk result (λ f. (f.place < max length 1) × (from + 5 * f.records ≤ f.place)) }
    ensures answers { IfErr result (λ e. (e ≡ Stop.Disk) ⊎ SaysDamage file e) }
    ensures found { Tells (D.disk disk.old) → IfOk result (IsFound from (file_of (D.disk disk.old) file).bytes) }
    ensures damaged { Tells (D.disk disk.old) → IfErr result (λ e. (e ≡ Stop.Disk) ⊎ IsDamage file from (file_of (D.disk disk.old) file).bytes e) }
{
    let mut place = from;
    let mut records = 0;
    if place == 0 && length == 0 {
        return Ok(Found {
            place,
            records,
            gate: CLOSED,
        });
    }
    while place < length {
        let (gate, size) = head_at(disk, file, place)?;
        let is_last = length - place == 1;
        if gate != OPEN || is_last {
            return Ok(Found {
                place,
                records,
                gate,
            });
        }
        let taken = size as u64 + HEAD;
        if size > MAX_BODY || length - place <= taken {
            return Err(Stop::Damaged { file, at: place });
        }
        place += taken;
        records += 1;
    }
    Err(Stop::Damaged { file, at: place })
}

/// Cuts a file, and puts the cut on the disk.
fn cut_tail<D: Disk>(disk: &mut D, file: u64, to: u64) -> Result<(), DiskFault>
    requires { Tells (D.disk disk.old) → to ≤ length (file_of (D.disk disk.old) file).bytes }
    ensures counts { Counts 0 0 1 (D.disk disk.old) (D.disk disk.new) }
    ensures cause { OnErr result (HasRisen (D.disk disk.old).faults (D.disk disk.new).faults) }
    ensures any_moment { Tells (D.disk disk.old) → During (D.disk disk.old) (D.disk disk.new) (OneFile file (present (D.disk disk.old))
        (λ c. IsAtRest (file_of (D.disk disk.old) file) → CutShort to (file_of (D.disk disk.old) file).bytes c)) }
    ensures cut { Tells (D.disk disk.old) → OnOk result ((file_of (D.disk disk.new) file).bytes ≡ take to (file_of (D.disk disk.old) file).bytes) }
    ensures durable { Tells (D.disk disk.old) → OnOk result (IsAtRest (file_of (D.disk disk.new) file)) }
{
    disk.cut(file, to)?;
    disk.sync(file)
}

/// Leaves a closed gate alone where the records end. The gate is written only once the cut is on the disk: a gate that a
/// crash had left open may have a whole record behind it, which must not come back.
pub(crate) fn repair<D: Disk>(
    disk: &mut D,
    file: u64,
    length: u64,
    end: u64,
    gate: u8,
) -> Result<(), DiskFault>
    requires inside { end < max length 1 }
    requires length { Tells (D.disk disk.old) → length ≡ Rattle.std.specs.Prelude.length (file_of (D.disk disk.old) file).bytes }
    requires gate { Tells (D.disk disk.old) → end < length → gate ≡ get_or (file_of (D.disk disk.old) file).bytes end 0 }
    requires ends { Tells (D.disk disk.old) → end < length → EndsAt end (file_of (D.disk disk.old) file).bytes }
    ensures counts { Counts 0 0 2 (D.disk disk.old) (D.disk disk.new) }
    ensures cause { OnErr result (HasRisen (D.disk disk.old).faults (D.disk disk.new).faults) }
    ensures clean { Tells (D.disk disk.old) → drop end (file_of (D.disk disk.old) file).bytes ≡ 0 ∷ [] → OnlyReads (D.disk disk.old) (D.disk disk.new) }
    ensures any_moment { Tells (D.disk disk.old) → During (D.disk disk.old) (D.disk disk.new) (OneFile file (present (D.disk disk.old))
        (λ c. IsAtRest (file_of (D.disk disk.old) file) → KeepsLog end (file_of (D.disk disk.old) file).bytes c)) }
    ensures kept { Tells (D.disk disk.old) → OnOk result (KeepsLog end (file_of (D.disk disk.old) file).bytes (file_of (D.disk disk.new) file).bytes) }
    ensures bytes { Tells (D.disk disk.old) → OnOk result ((file_of (D.disk disk.new) file).bytes ≡ take end (file_of (D.disk disk.old) file).bytes ++ 0 ∷ []) }
    ensures closed { Tells (D.disk disk.old) → OnOk result (drop end (file_of (D.disk disk.new) file).bytes ≡ 0 ∷ []) }
    ensures durable { Tells (D.disk disk.old) → OnOk result (IsAtRest (file_of (D.disk disk.old) file) ⊎ (length ≡ 0) → IsAtRest (file_of (D.disk disk.new) file)) }
{
    if length == 0 {
        return set_gate(disk, file, end, CLOSED);
    }
    if length - end == 1 && gate == CLOSED {
        return Ok(());
    }
    cut_tail(disk, file, end + 1)?;
    set_gate(disk, file, end, CLOSED)
}
