//! An engine log that is open.
ghost use Rattle.std.specs.Prelude.{◌≡◌, ◌≤◌, ◌<◌, ◌+◌, ◌^◌, ◌⊎◌, ◌∷◌, [], drop, length, IfOk, IfErr, OnOk, IsSome, Some, None, Err, Ok, ℕ};
ghost use Rattle.std.specs.Option.{option_map};
ghost use Rattle.mr_base.specs.Disk.{State, Tells, present, file_of, IsAtRest, HasRisen};
ghost use Rattle.mr_base.specs.Calls.{During, OneFile, Counts, Rises, Reads};
ghost use Rattle.mr_gate.specs.Gate.{SaysDamage, OnlyReads};
ghost use Rattle.mr_wal.specs.EngineLog.{record_bytes};
ghost use Rattle.mr_wal.specs.declared.record.WalBody.TheVariants.{Prepare as APrepare, Plain as APlain, Decided as ADecided};
ghost use Rattle.mr_engine_log.specs.Logged.{Logged, log_of};
ghost use Rattle.mr_engine_log.specs.Added.{HasRecord, KeepsLogged, Records};
ghost use Rattle.mr_engine_log.specs.Standing.{record_of, with_record, with_verdict, prepared, IsReady, IsLeftBy, IsOpened, HasRoom, HasNoNumber, IsFullFor, IsRecordStop, IsAppendStop};

use crate::batched::{Batched, Prepared};
use crate::reader::Left;
use crate::record::{append, batch_of, check_room, next_sequence};
use mr_base::{Disk, Stop};
use mr_gate::GateLog;
use mr_wal::{Batch, WalBody, WalRecord, plain_length, prepare_length};
use std::alloc::Global;
use std::marker::Model;

/// The length in bytes that the file of an engine log is not to pass, 2^40.
pub const ENGINE_LOG_LIMIT: u64 = 1 << 40;

/// The length of the body of a record that only brings a verdict.
const DECIDED: u64 = 2;

/// An engine log that is open. After a call that answered `Disk` it is not used; after `Memory` and `Full` it is as it was.
#[derive(Drop)]
pub struct EngineLog {
    log: GateLog,
    base: u64,
    pending: Option<Prepared>,
    last: u64,
    verdict: u8,
}

impl Model for EngineLog {
    ghost use Rattle.mr_engine_log.specs.Standing.{LogState};

    ghost Value = { LogState };

    ghost view = { λ l. record { gate = l.log; base = l.base; pending = l.pending; last = l.last; verdict = l.verdict } };
}

impl EngineLog {
    /// Makes a new log in a file, before whose first record this is the last sequence number. What the file had is gone.
    pub fn create<D: Disk>(disk: &mut D, file: u64, base: u64) -> Result<EngineLog, Stop>
        ensures opened { IfOk result (IsOpened file base None base) }
        ensures ready { IfOk result (λ log. IsReady log (D.disk disk.new)) }
        ensures empty { Tells (D.disk disk.old) → IfOk result (λ log. (log.gate.end ≡ 0) × (log.gate.records ≡ 0)) }
        ensures bytes { Tells (D.disk disk.old) → OnOk result ((file_of (D.disk disk.new) file).bytes ≡ 0 ∷ []) }
        ensures durable { Tells (D.disk disk.old) → OnOk result (IsAtRest (file_of (D.disk disk.new) file)) }
        ensures rises { Rises 2 (D.disk disk.old) (D.disk disk.new) }
        ensures reads { Tells (D.disk disk.old) → Reads 1 5 (D.disk disk.old) (D.disk disk.new) }
        ensures failed { result ≡ Err Stop.Disk → HasRisen (D.disk disk.old).faults (D.disk disk.new).faults }
        ensures answers { IfErr result (λ e. (e ≡ Stop.Disk) ⊎ SaysDamage file e) }
        ensures told { Tells (D.disk disk.old) → IfErr result (λ e. e ≡ Stop.Disk) }
        // The other files and the output are as they were at each moment.
        ensures any_moment { Tells (D.disk disk.old) → During (D.disk disk.old) (D.disk disk.new) (OneFile file (present (D.disk disk.old)) (λ c. Unit {0})) }
    {
        disk.cut(file, 0)?;
        let log = GateLog::open(disk, file, 0, ENGINE_LOG_LIMIT)?;
        Ok(EngineLog {
            log,
            base,
            pending: None,
            last: base,
            verdict: 0,
        })
    }

    /// Opens the log of a file whose records were read to their end, and repairs the end. Takes no memory.
    pub fn open<D: Disk>(disk: &mut D, file: u64, base: u64, left: Left) -> Result<EngineLog, Stop>
        requires left { Tells (D.disk disk.old) → IsLeftBy base (file_of (D.disk disk.old) file).bytes left }
        ensures opened { IfOk result (IsOpened file base left.pending left.last) }
        ensures ready { IfOk result (λ log. IsReady log (D.disk disk.new)) }
        ensures end { Tells (D.disk disk.old) → IfOk result (λ log. log.gate.end ≡ left.end) }
        ensures kept { Tells (D.disk disk.old) → OnOk result (KeepsLogged (file_of (D.disk disk.old) file).bytes (file_of (D.disk disk.new) file).bytes) }
        ensures durable { Tells (D.disk disk.old) → OnOk result (IsAtRest (file_of (D.disk disk.old) file) ⊎ ((file_of (D.disk disk.old) file).bytes ≡ []) → IsAtRest (file_of (D.disk disk.new) file)) }
        ensures rises { Rises 2 (D.disk disk.old) (D.disk disk.new) }
        ensures reads { Tells (D.disk disk.old) → Reads 1 5 (D.disk disk.old) (D.disk disk.new) }
        // Where a closed gate stands alone at the end there is nothing to repair.
        ensures clean { Tells (D.disk disk.old) → drop left.end (file_of (D.disk disk.old) file).bytes ≡ 0 ∷ [] → OnlyReads (D.disk disk.old) (D.disk disk.new) }
        ensures failed { result ≡ Err Stop.Disk → HasRisen (D.disk disk.old).faults (D.disk disk.new).faults }
        ensures answers { IfErr result (λ e. (e ≡ Stop.Disk) ⊎ (SaysDamage file e × OnlyReads (D.disk disk.old) (D.disk disk.new))) }
        ensures told { Tells (D.disk disk.old) → IfErr result (λ e. e ≡ Stop.Disk) }
        // A crash at any moment leaves what the log left, and the other files as they were.
        ensures any_moment { Tells (D.disk disk.old) → During (D.disk disk.old) (D.disk disk.new) (OneFile file (present (D.disk disk.old))
            (λ c. IsAtRest (file_of (D.disk disk.old) file) → KeepsLogged (file_of (D.disk disk.old) file).bytes c)) }
    {
        let log = GateLog::open(disk, file, left.end, ENGINE_LOG_LIMIT)?;
        Ok(EngineLog {
            log,
            base,
            pending: left.pending,
            last: left.last,
            verdict: 0,
        })
    }

    /// The commit number of the prepare that isn't decided.
    pub fn pending(&self) -> Option<u64>
        ensures { result ≡ option_map (λ p. p.commit) self.now.pending }
    {
        match &self.pending {
            Some(prepared) => Some(prepared.commit),
            None => None,
        }
    }

    /// The last sequence number used, also by an abandoned prepare.
    pub fn last(&self) -> u64
        ensures { result ≡ self.now.last }
    {
        self.last
    }

    /// The verdict on the log's last prepare that no record has yet: 0 is none, 1 committed, 2 abandoned.
    pub fn verdict(&self) -> u8
        ensures { result ≡ self.now.verdict }
    {
        self.verdict
    }

    /// The length of the log's file in bytes.
    pub fn bytes(&self) -> u64
        ensures { result ≡ self.now.gate.end + 1 }
    {
        self.log.end() + 1
    }

    /// The number of the log's file.
    pub fn file(&self) -> u64
        ensures { result ≡ self.now.gate.file }
    {
        self.log.file()
    }

    /// Whether no call on it stopped at the disk.
    pub fn is_open(&self) -> bool
        ensures { result ≡ self.now.gate.is_open }
    {
        self.log.is_open()
    }

    /// Decides the pending prepare for its commit, and answers it: its batch counts. The next record says so. Takes no memory and
    /// touches no disk.
    pub fn decide(&mut self) -> Option<Prepared>
        requires pending { IsSome self.old.pending }
        ensures decided { result ≡ self.old.pending }
        ensures log { self.new ≡ with_verdict 1 self.old }
        ensures ready { (s : State) → IsReady self.old s → IsReady self.new s }
    {
        self.verdict = 1;
        self.pending.take()
    }

    /// Drops the pending prepare. The next record says so. Takes no memory and touches no disk.
    pub fn abandon(&mut self)
        requires pending { IsSome self.old.pending }
        ensures log { self.new ≡ with_verdict 2 self.old }
        ensures ready { (s : State) → IsReady self.old s → IsReady self.new s }
    {
        self.verdict = 2;
        self.pending = None;
    }

    /// Answers `Full`, of the log and else of the sequence numbers, exactly where `prepare` of the batch would. Takes no memory and
    /// touches no disk.
    pub fn room(&self, batch: &Batch) -> Result<(), Stop>
        ensures ok { OnOk result ((k : ℕ) → HasRoom self.now (length (record_bytes (record_of self.now (APrepare k (self.now.last + 1) batch.now))))) }
        ensures number { OnOk result (HasNoNumber self.now.last → ⊥) }
        ensures full { (k : ℕ) → IfErr result (IsFullFor self.now (length (record_bytes (record_of self.now (APrepare k (self.now.last + 1) batch.now))))) }
    {
        next_sequence(&self.log, self.last, prepare_length(batch))?;
        Ok(())
    }

    /// Adds a batch at once, and gives it back with its number: it counts. The record's body has at most 2^29 bytes. Takes memory.
    pub fn write<D: Disk>(
        &mut self,
        alloc: Global,
        disk: &mut D,
        batch: Batch,
    ) -> Result<Batched, Stop>
        requires ready { IsReady self.old (D.disk disk.old) }
        requires nothing { self.old.pending ≡ None }
        requires short { length (record_bytes (record_of self.old (APlain (self.old.last + 1) batch))) ≤ 2 ^ 29 }
        ensures given { IfOk result (λ b. b ≡ record { commit = None; sequence = self.old.last + 1; operations = batch }) }
        ensures log { OnOk result (self.new ≡ with_record (length (record_bytes (record_of self.old (APlain (self.old.last + 1) batch)))) None (self.old.last + 1) self.old) }
        ensures ready { OnOk result (IsReady self.new (D.disk disk.new)) }
        ensures room { OnOk result (HasRoom self.old (length (record_bytes (record_of self.old (APlain (self.old.last + 1) batch))))) }
        ensures number { OnOk result (HasNoNumber self.old.last → ⊥) }
        ensures has { Tells (D.disk disk.old) → OnOk result (HasRecord (record_of self.old (APlain (self.old.last + 1) batch)) (file_of (D.disk disk.old) self.old.gate.file).bytes (file_of (D.disk disk.new) self.old.gate.file).bytes) }
        ensures counts { Counts 0 0 2 (D.disk disk.old) (D.disk disk.new) }
        ensures err { IfErr result (IsAppendStop self.old (length (record_bytes (record_of self.old (APlain (self.old.last + 1) batch)))) (D.disk disk.old) (D.disk disk.new)) }
        ensures kept { IfErr result (λ e. (e ≡ Stop.Disk) ⊎ (self.new ≡ self.old)) }
        ensures durable { Tells (D.disk disk.old) → OnOk result (IsAtRest (file_of (D.disk disk.new) self.old.gate.file)) }
        // A crash at any moment leaves what the log left, or that with the batch, and the other files as they were.
        ensures any_moment { Tells (D.disk disk.old) → Records (record_of self.old (APlain (self.old.last + 1) batch)) self.old.gate.file (D.disk disk.old) (D.disk disk.new) }
    {
        let sequence = next_sequence(&self.log, self.last, plain_length(&batch))?;
        let item = WalRecord {
            verdict: self.verdict,
            body: WalBody::Plain { sequence, batch },
        };
        append(alloc, disk, &mut self.log, self.base, self.last, &item)?;
        self.last = sequence;
        self.verdict = 0;
        Ok(Batched {
            commit: None,
            sequence,
            operations: batch_of(alloc, item.body),
        })
    }

    /// Prepares a batch for commit k. It counts once it is decided. The record's body has at most 2^29 bytes. Takes memory, also that which the
    /// decision needs.
    pub fn prepare<D: Disk>(
        &mut self,
        alloc: Global,
        disk: &mut D,
        k: u64,
        batch: Batch,
    ) -> Result<(), Stop>
        requires ready { IsReady self.old (D.disk disk.old) }
        requires nothing { self.old.pending ≡ None }
        requires short { length (record_bytes (record_of self.old (APrepare k (self.old.last + 1) batch))) ≤ 2 ^ 29 }
        ensures log { OnOk result (self.new ≡ with_record (length (record_bytes (record_of self.old (APrepare k (self.old.last + 1) batch)))) (Some (prepared k (self.old.last + 1) batch)) (self.old.last + 1) self.old) }
        ensures ready { OnOk result (IsReady self.new (D.disk disk.new)) }
        ensures room { OnOk result (HasRoom self.old (length (record_bytes (record_of self.old (APrepare k (self.old.last + 1) batch))))) }
        ensures number { OnOk result (HasNoNumber self.old.last → ⊥) }
        ensures has { Tells (D.disk disk.old) → OnOk result (HasRecord (record_of self.old (APrepare k (self.old.last + 1) batch)) (file_of (D.disk disk.old) self.old.gate.file).bytes (file_of (D.disk disk.new) self.old.gate.file).bytes) }
        ensures counts { Counts 0 0 2 (D.disk disk.old) (D.disk disk.new) }
        ensures err { IfErr result (IsAppendStop self.old (length (record_bytes (record_of self.old (APrepare k (self.old.last + 1) batch)))) (D.disk disk.old) (D.disk disk.new)) }
        ensures kept { IfErr result (λ e. (e ≡ Stop.Disk) ⊎ (self.new ≡ self.old)) }
        ensures durable { Tells (D.disk disk.old) → OnOk result (IsAtRest (file_of (D.disk disk.new) self.old.gate.file)) }
        // A crash at any moment leaves what the log left, or that with the prepare, and the other files as they were.
        ensures any_moment { Tells (D.disk disk.old) → Records (record_of self.old (APrepare k (self.old.last + 1) batch)) self.old.gate.file (D.disk disk.old) (D.disk disk.new) }
    {
        let sequence = next_sequence(&self.log, self.last, prepare_length(&batch))?;
        let item = WalRecord {
            verdict: self.verdict,
            body: WalBody::Prepare { k, sequence, batch },
        };
        append(alloc, disk, &mut self.log, self.base, self.last, &item)?;
        self.last = sequence;
        self.verdict = 0;
        self.pending = Some(Prepared {
            commit: k,
            sequence,
            operations: batch_of(alloc, item.body),
        });
        Ok(())
    }

    /// Brings the verdict to the log that no record has yet. Takes memory. Where there is none, nothing is done.
    pub fn settle<D: Disk>(&mut self, alloc: Global, disk: &mut D) -> Result<(), Stop>
        requires ready { IsReady self.old (D.disk disk.old) }
        requires nothing { self.old.pending ≡ None }
        ensures settled { self.old.verdict ≡ 0 → (result ≡ Ok tt) × (self.new ≡ self.old) × (D.disk disk.new ≡ D.disk disk.old) }
        ensures log { (self.old.verdict ≡ 0 → ⊥) → OnOk result (self.new ≡ with_record (length (record_bytes (record_of self.old ADecided))) None self.old.last self.old) }
        ensures verdict { OnOk result (self.new.verdict ≡ 0) }
        ensures ready { OnOk result (IsReady self.new (D.disk disk.new)) }
        ensures room { (self.old.verdict ≡ 0 → ⊥) → OnOk result (HasRoom self.old (length (record_bytes (record_of self.old ADecided)))) }
        ensures has { Tells (D.disk disk.old) → (self.old.verdict ≡ 0 → ⊥) → OnOk result (HasRecord (record_of self.old ADecided) (file_of (D.disk disk.old) self.old.gate.file).bytes (file_of (D.disk disk.new) self.old.gate.file).bytes) }
        ensures counts { Counts 0 0 2 (D.disk disk.old) (D.disk disk.new) }
        ensures err { IfErr result (IsRecordStop self.old.gate (length (record_bytes (record_of self.old ADecided))) (D.disk disk.old) (D.disk disk.new)) }
        ensures kept { IfErr result (λ e. (e ≡ Stop.Disk) ⊎ (self.new ≡ self.old)) }
        ensures durable { Tells (D.disk disk.old) → (self.old.verdict ≡ 0 → ⊥) → OnOk result (IsAtRest (file_of (D.disk disk.new) self.old.gate.file)) }
        // A crash at any moment leaves what the log left, or that with the verdict, and the other files as they were.
        ensures any_moment { Tells (D.disk disk.old) → Records (record_of self.old ADecided) self.old.gate.file (D.disk disk.old) (D.disk disk.new) }
    {
        if self.verdict == 0 {
            return Ok(());
        }
        check_room(&self.log, DECIDED)?;
        let item = WalRecord {
            verdict: self.verdict,
            body: WalBody::Decided,
        };
        append(alloc, disk, &mut self.log, self.base, self.last, &item)?;
        self.verdict = 0;
        Ok(())
    }
}
