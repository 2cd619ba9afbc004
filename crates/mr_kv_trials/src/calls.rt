//! Calls of a store by what is known of it. A batch that the store can't take is left out.
ghost use Rattle.std.specs.Prelude.{OnOk};
ghost use Rattle.mr_kv_trials.specs.Silent.{IsReadyOver};

use crate::untold::Untold;
use mr_base::Stop;
use mr_kv::Kv;
use mr_wal::{Batch, plain_length, prepare_length};
use std::alloc::Global;

/// No record here is longer.
const LONG: u64 = 1000;

pub fn write(alloc: Global, disk: &mut Untold, kv: &mut Kv, batch: Batch) -> Result<(), Stop>
    requires { IsReadyOver disk.old.host kv.old }
    ensures { OnOk result (IsReadyOver disk.new.host kv.new) }
{
    if kv.pending().is_some() || plain_length(&batch) > LONG {
        return Ok(());
    }
    kv.write(alloc, disk, batch)
}

pub fn prepare(
    alloc: Global,
    disk: &mut Untold,
    kv: &mut Kv,
    k: u64,
    batch: Batch,
) -> Result<(), Stop>
    requires { IsReadyOver disk.old.host kv.old }
    ensures { OnOk result (IsReadyOver disk.new.host kv.new) }
{
    if kv.pending().is_some() || prepare_length(&batch) > LONG {
        return Ok(());
    }
    kv.prepare(alloc, disk, k, batch)
}

/// Decides or abandons the batch that is pending.
pub fn judge(disk: &Untold, kv: &mut Kv, decides: bool)
    requires { IsReadyOver disk.now.host kv.old }
    ensures { IsReadyOver disk.now.host kv.new }
{
    match kv.pending() {
        Some(k) if decides => kv.decide(k),
        Some(k) => kv.abandon(k),
        None => {}
    }
}

pub fn settle(alloc: Global, disk: &mut Untold, kv: &mut Kv) -> Result<(), Stop>
    requires { IsReadyOver disk.old.host kv.old }
    ensures { OnOk result (IsReadyOver disk.new.host kv.new) }
{
    if kv.pending().is_some() {
        return Ok(());
    }
    kv.settle(alloc, disk)
}
