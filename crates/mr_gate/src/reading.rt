//! One record of a log.
ghost use Rattle.std.specs.Prelude.{◌≡◌, ◌≤◌, ◌+◌, ◌^◌, [], ◌∷◌, length, take, drop, IfOk, IfErr, OnErr, IsSomeAnd, IfSome, Some, None, ◌⊎◌};
ghost use Rattle.mr_base.specs.Disk.{Tells, file_of, HasRisen};
ghost use Rattle.mr_base.specs.Calls.{Same, Counts, Reads};
ghost use Rattle.mr_gate.specs.Gate.{Reaches, IsNext, IsUntouched, next_size};

use crate::frame::{HEAD, MAX_BODY, OPEN, head_at};
use mr_base::{Blob, Disk, Stop};
use std::alloc::Global;

/// So many bytes of a file, None where it is too short.
pub(crate) fn bytes_at<D: Disk>(
    alloc: Global,
    disk: &mut D,
    file: u64,
    place: u64,
    count: usize,
) -> Result<Option<Vec<u8>>, Stop>
    ensures counts { Counts 1 count 0 (D.disk disk.old) (D.disk disk.new) }
    ensures cause { result ≡ Err Stop.Disk → HasRisen (D.disk disk.old).faults (D.disk disk.new).faults }
    ensures same { Tells (D.disk disk.old) → Same (D.disk disk.old) (D.disk disk.new) }
    ensures err { IfErr result (λ e. (e ≡ Stop.Disk) ⊎ (e ≡ Stop.Memory)) }
    ensures long { IfOk result (λ o. IfSome o (λ v. length v.items ≡ count)) }
    ensures read { Tells (D.disk disk.old) → place + count ≤ length (file_of (D.disk disk.old) file).bytes
        → IfOk result (λ o. IsSomeAnd o (λ v. v.items ≡ take count (drop place (file_of (D.disk disk.old) file).bytes))) }
{
    let mut bytes = vec![in alloc; 0u8; count]?;
    let got = disk.read(file, place, &mut bytes)?;
    if got < count {
        return Ok(None);
    }
    Ok(Some(bytes))
}

/// The record at a place of a log that ends there.
pub(crate) fn record_at<D: Disk>(
    alloc: Global,
    disk: &mut D,
    file: u64,
    end: u64,
    at: u64,
) -> Result<Option<(Blob, u64)>, Stop>
    requires { Tells (D.disk disk.old) → drop end (file_of (D.disk disk.old) file).bytes ≡ 0 ∷ [] }
    ensures counts { Counts 2 (5 + 2 ^ 29) 0 (D.disk disk.old) (D.disk disk.new) }
    ensures cause { result ≡ Err Stop.Disk → HasRisen (D.disk disk.old).faults (D.disk disk.new).faults }
    ensures same { Tells (D.disk disk.old) → Same (D.disk disk.old) (D.disk disk.new) }
    ensures answers { IfErr result (λ e. (e ≡ Stop.Disk) ⊎ ((e ≡ Stop.Memory) ⊎ (e ≡ Stop.Damaged file at))) }
    ensures at_end { at ≡ end → (result ≡ Ok None) × IsUntouched (D.disk disk.old) (D.disk disk.new) }
    ensures only_at_end { result ≡ Ok None → at ≡ end }
    ensures ahead { IfOk result (λ o. IfSome o (λ r. (r.1 ≡ at + (5 + length r.0)) × (r.1 ≤ end))) }
    ensures read { Tells (D.disk disk.old) → Reaches end at (file_of (D.disk disk.old) file).bytes
        → IfOk result (IsNext at (file_of (D.disk disk.old) file).bytes) }
    ensures err { Tells (D.disk disk.old) → Reaches end at (file_of (D.disk disk.old) file).bytes
        → IfErr result (λ e. (e ≡ Stop.Disk) ⊎ (e ≡ Stop.Memory)) }
    ensures cost { Tells (D.disk disk.old) → Reaches end at (file_of (D.disk disk.old) file).bytes
        → Reads 2 (next_size at (file_of (D.disk disk.old) file).bytes) (D.disk disk.old) (D.disk disk.new) }
{
    if at == end {
        return Ok(None);
    }
    let (gate, size) = head_at(disk, file, at)?;
    let left = end.saturating_sub(at);
    let taken = size as u64 + HEAD;
    if gate != OPEN || size > MAX_BODY || left < taken {
        return Err(Stop::Damaged { file, at });
    }
    match bytes_at(alloc, disk, file, at + HEAD, size as usize)? {
        Some(body) => Ok(Some((Blob::from_vec(body), at + taken))),
        None => Err(Stop::Damaged { file, at }),
    }
}
