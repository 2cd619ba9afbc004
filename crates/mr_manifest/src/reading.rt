//! Reading a manifest, without writing.
ghost use Rattle.std.specs.Prelude.{◌≡◌, ◌≤◌, ◌<◌, IfOk, IfErr, Ok, Err, ◌⊎◌};
ghost use Rattle.mr_base.specs.Disk.{Tells, file_of, HasRisen};
ghost use Rattle.mr_base.specs.Calls.{Same, Rises};
ghost use Rattle.mr_base.specs.declared.stop.Stop.TheVariants.{Damaged};
ghost use Rattle.mr_gate.specs.Log.{records_from, span};
ghost use Rattle.mr_gate.specs.Gate.{SaysDamage};
ghost use Rattle.mr_manifest.specs.Manifest.{then_judged, sum_of_file, IsOffence, IsManifest, IsManifestDamage, WalkReads, TellsOffence};

use crate::live::Live;
use crate::sum::{Sum, breach, empty_sum, go_on};
use mr_base::{Disk, Stop};
use mr_gate::LogWalk;
use std::alloc::Global;

/// The manifest is this file.
pub const MANIFEST: u64 = 0;

/// The sum, unless there was an offence, or the rule on numbers doesn't hold behind the last record.
fn judge(sum: Sum, offence: Option<u64>) -> Result<Sum, Stop>
    ensures ok { IfOk result (λ s. then_judged offence sum ≡ Ok s) }
    ensures err { IfErr result (TellsOffence (then_judged offence sum)) }
{
    if let Some(at) = offence {
        return Err(Stop::Damaged { file: MANIFEST, at });
    }
    match breach(&sum) {
        Some(at) => Err(Stop::Damaged { file: MANIFEST, at }),
        None => Ok(sum),
    }
}

/// What the records of the manifest add up to. The first damage is told: of the log, and else of a body, and else of the
/// rule on numbers. Takes memory.
pub fn read_manifest<D: Disk>(alloc: Global, disk: &mut D) -> Result<Sum, Stop>
    ensures rises { Rises 0 (D.disk disk.old) (D.disk disk.new) }
    ensures failed { result ≡ Err Stop.Disk → HasRisen (D.disk disk.old).faults (D.disk disk.new).faults }
    ensures same { Tells (D.disk disk.old) → Same (D.disk disk.old) (D.disk disk.new) }
    ensures answers { IfErr result (λ e. (e ≡ Stop.Disk) ⊎ ((e ≡ Stop.Memory) ⊎ SaysDamage 0 e)) }
    ensures reads { Tells (D.disk disk.old) → WalkReads (span (records_from 0 (file_of (D.disk disk.old) 0).bytes)) (D.disk disk.old) (D.disk disk.new) }
    ensures read { Tells (D.disk disk.old) → IfOk result (λ s. sum_of_file (file_of (D.disk disk.old) 0).bytes ≡ Ok s) }
    ensures damaged { Tells (D.disk disk.old) → IfErr result (λ e. (e ≡ Stop.Disk) ⊎ ((e ≡ Stop.Memory)
        ⊎ IsOffence (file_of (D.disk disk.old) 0).bytes e)) }
{
    let mut walk = LogWalk::begin(alloc, disk, MANIFEST, 0)?;
    let mut sum = empty_sum(alloc);
    let mut offence = None;
    'walking: while let Some((at, body)) = walk.next_record(alloc, disk)? {
        offence = go_on(alloc, &mut sum, offence, at, body.as_slice())?;
    }
    judge(sum, offence)
}

/// What is live by the manifest, which is left as it is. The first damage is told: of the log, and else of a body, and
/// else of the rule on numbers. Takes memory.
pub fn peek<D: Disk>(alloc: Global, disk: &mut D) -> Result<Live, Stop>
    ensures rises { Rises 0 (D.disk disk.old) (D.disk disk.new) }
    ensures failed { result ≡ Err Stop.Disk → HasRisen (D.disk disk.old).faults (D.disk disk.new).faults }
    ensures same { Tells (D.disk disk.old) → Same (D.disk disk.old) (D.disk disk.new) }
    ensures answers { IfErr result (λ e. (e ≡ Stop.Disk) ⊎ ((e ≡ Stop.Memory) ⊎ SaysDamage 0 e)) }
    ensures reads { Tells (D.disk disk.old) → WalkReads (span (records_from 0 (file_of (D.disk disk.old) 0).bytes)) (D.disk disk.old) (D.disk disk.new) }
    // There is damage exactly where it says so.
    ensures read { Tells (D.disk disk.old) → IfOk result (IsManifest (file_of (D.disk disk.old) 0).bytes) }
    ensures damaged { Tells (D.disk disk.old) → IfErr result (λ e. (e ≡ Stop.Disk) ⊎ ((e ≡ Stop.Memory)
        ⊎ IsManifestDamage (file_of (D.disk disk.old) 0).bytes e)) }
{
    let sum = read_manifest(alloc, disk)?;
    Ok(sum.live)
}
