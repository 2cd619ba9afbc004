//! One record more in an engine log.
ghost use Rattle.std.specs.Prelude.{◌≡◌, ◌≤◌, ◌^◌, ◌+◌, ◌-◌, ◌<◌, ◌⊎◌, ℕ, min, length, IsTrue, false, IfOk, IfErr, OnOk, Some, None, Option};
ghost use Rattle.mr_base.specs.Disk.{Tells, file_of, IsAtRest};
ghost use Rattle.mr_base.specs.Calls.{Counts};
ghost use Rattle.mr_gate.specs.Log.{end_from, is_damaged_from};
ghost use Rattle.mr_gate.specs.Gate.{Stands, HasNoRoom, appended, full};
ghost use Rattle.mr_wal.specs.EngineLog.{record_bytes};
ghost use Rattle.mr_engine_log.specs.Added.{HasRecord, KeepsRules, KeepsNumbers, Records};
ghost use Rattle.mr_engine_log.specs.Standing.{IsAddStop, IsFullBy, IsReady, Leaves, log_with, operations_of};
ghost use Rattle.mr_engine_log.specs.declared.batched.Prepared.{Prepared};

use mr_base::{Disk, FullKind, Stop};
use mr_gate::GateLog;
use mr_wal::{Batch, WalBody, WalRecord, write_record};
use std::alloc::Global;

/// Sequence numbers are below this one.
const SEQUENCES: u64 = 1 << 63;

/// What a record takes beside its body.
const HEAD: u64 = 5;

/// Whether a record has room whose body has this length, or any length that isn't below 2^64 - 1 where this is the greatest number.
pub(crate) fn check_room(log: &GateLog, length: u64) -> Result<(), Stop>
    ensures room { (n : ℕ) → length ≡ min n (2 ^ 64 - 1) → OnOk result (HasNoRoom log.now n → ⊥) }
    ensures full { (n : ℕ) → length ≡ min n (2 ^ 64 - 1) → IfErr result (λ e. (e ≡ full log.now) × HasNoRoom log.now n) }
{
    let long = log.end() + 1;
    let limit = log.limit();
    if limit.saturating_sub(long) < length.saturating_add(HEAD) {
        return Err(Stop::Full {
            what: FullKind::Log(log.file()),
            at: long,
            limit,
        });
    }
    Ok(())
}

/// The next sequence number, unless a record with a body of this length has no room in the log, or no number is left.
pub(crate) fn next_sequence(log: &GateLog, last: u64, length: u64) -> Result<u64, Stop>
    ensures ok { IfOk result (λ n. (n ≡ last + 1) × (n < 2 ^ 63)) }
    ensures room { (n : ℕ) → length ≡ min n (2 ^ 64 - 1) → OnOk result (HasNoRoom log.now n → ⊥) }
    ensures full { (n : ℕ) → length ≡ min n (2 ^ 64 - 1) → IfErr result (IsFullBy log.now last n) }
{
    check_room(log, length)?;
    if last >= SEQUENCES - 1 {
        return Err(Stop::Full {
            what: FullKind::Sequence,
            at: last.saturating_add(1),
            limit: SEQUENCES,
        });
    }
    Ok(last + 1)
}

/// Adds a record that has room. Memory is taken before anything is written.
fn add_record<D: Disk>(
    alloc: Global,
    disk: &mut D,
    log: &mut GateLog,
    item: &WalRecord,
) -> Result<(), Stop>
    requires is_open { IsTrue log.old.is_open }
    requires short { length (record_bytes item.now) ≤ 2 ^ 29 }
    requires room { HasNoRoom log.old (length (record_bytes item.now)) → ⊥ }
    requires rules { KeepsRules item.now }
    requires stands { Tells (D.disk disk.old) → Stands log.old (file_of (D.disk disk.old) log.old.file).bytes }
    requires end { Tells (D.disk disk.old) → log.old.end ≡ end_from 0 (file_of (D.disk disk.old) log.old.file).bytes }
    requires sound { Tells (D.disk disk.old) → is_damaged_from 0 (file_of (D.disk disk.old) log.old.file).bytes ≡ false }
    ensures ok { OnOk result (log.new ≡ appended log.old (length (record_bytes item.now))) }
    ensures kept { IfErr result (λ e. (e ≡ Stop.Disk) ⊎ (log.new ≡ log.old)) }
    ensures counts { Counts 0 0 2 (D.disk disk.old) (D.disk disk.new) }
    ensures err { IfErr result (IsAddStop (D.disk disk.old) (D.disk disk.new)) }
    ensures stands { Tells (D.disk disk.old) → OnOk result (Stands log.new (file_of (D.disk disk.new) log.old.file).bytes) }
    ensures end { Tells (D.disk disk.old) → OnOk result (log.new.end ≡ end_from 0 (file_of (D.disk disk.new) log.old.file).bytes) }
    ensures has { Tells (D.disk disk.old) → OnOk result (HasRecord item.now (file_of (D.disk disk.old) log.old.file).bytes (file_of (D.disk disk.new) log.old.file).bytes) }
    ensures durable { Tells (D.disk disk.old) → OnOk result (IsAtRest (file_of (D.disk disk.new) log.old.file)) }
    ensures any_moment { Tells (D.disk disk.old) → Records item.now log.old.file (D.disk disk.old) (D.disk disk.new) }
{
    let body = write_record(alloc, item)?;
    log.append(disk, body.as_slice())?;
    Ok(())
}

/// Adds a record that has room to a log where nothing is pending.
pub(crate) fn append<D: Disk>(
    alloc: Global,
    disk: &mut D,
    log: &mut GateLog,
    base: u64,
    last: u64,
    item: &WalRecord,
) -> Result<(), Stop>
    requires ready { IsReady (log_with log.old base last item.now.verdict) (D.disk disk.old) }
    requires numbers { KeepsNumbers item.now.body }
    requires short { length (record_bytes item.now) ≤ 2 ^ 29 }
    requires room { HasNoRoom log.old (length (record_bytes item.now)) → ⊥ }
    ensures log { OnOk result (log.new ≡ appended log.old (length (record_bytes item.now))) }
    ensures kept { IfErr result (λ e. (e ≡ Stop.Disk) ⊎ (log.new ≡ log.old)) }
    ensures counts { Counts 0 0 2 (D.disk disk.old) (D.disk disk.new) }
    ensures err { IfErr result (IsAddStop (D.disk disk.old) (D.disk disk.new)) }
    ensures ready { (pending : Option Prepared) (later : ℕ) → Leaves item.now.body last pending later → OnOk result (IsReady (record { gate = log.new; base = base; pending = pending; last = later; verdict = 0 }) (D.disk disk.new)) }
    ensures has { Tells (D.disk disk.old) → OnOk result (HasRecord item.now (file_of (D.disk disk.old) log.old.file).bytes (file_of (D.disk disk.new) log.old.file).bytes) }
    ensures durable { Tells (D.disk disk.old) → OnOk result (IsAtRest (file_of (D.disk disk.new) log.old.file)) }
    ensures any_moment { Tells (D.disk disk.old) → Records item.now log.old.file (D.disk disk.old) (D.disk disk.new) }
{
    add_record(alloc, disk, log, item)?;
    Ok(())
}

/// The operations of a record.
pub(crate) fn batch_of(alloc: Global, body: WalBody) -> Batch
    ensures { result ≡ operations_of body }
{
    match body {
        WalBody::Prepare { batch, .. } => batch,
        WalBody::Plain { batch, .. } => batch,
        WalBody::Decided => Batch::new(alloc),
    }
}
