//! A store of a folder without a file.
ghost use Rattle.std.specs.Prelude.{IfOk, IsTrue};
ghost use Rattle.mr_kv_trials.specs.Silent.{IsReadyOver};

use crate::untold::Untold;
use mr_base::Stop;
use mr_engine_log::EngineLog;
use mr_families::Families;
use mr_kv::Kv;
use mr_manifest::{Edit, Manifest, first_record};
use std::alloc::Global;

/// The file of the first engine log.
pub const LOG: u64 = 16;

/// The manifest of a new folder, with this last sequence number.
fn begun(alloc: Global, disk: &mut Untold, last: u64) -> Result<Manifest, Stop>
    ensures { IfOk result (λ m. IsTrue m.gate.is_open) }
{
    let mut manifest = Manifest::open(alloc, disk)?;
    manifest.append(alloc, disk, &first_record())?;
    manifest.append(alloc, disk, &[Edit::LastSequence(last)])?;
    Ok(manifest)
}

/// A store without a batch, behind this sequence number.
pub fn fresh(alloc: Global, disk: &mut Untold, last: u64) -> Result<Kv, Stop>
    ensures { IfOk result (IsReadyOver disk.new.host) }
{
    let manifest = begun(alloc, disk, last)?;
    let log = EngineLog::create(disk, LOG, last)?;
    let families = Families::new(alloc)?;
    if manifest.live().log != LOG || manifest.live().last_sequence != last {
        return Err(Stop::Damaged { file: 0, at: 0 });
    }
    Ok(Kv::of(manifest, log, families))
}
