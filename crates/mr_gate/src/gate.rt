//! A log of records.
ghost use Rattle.std.specs.Prelude.{◌≡◌, ◌≤◌, ◌<◌, ◌+◌, ◌*◌, ◌^◌, ◌++◌, [], ◌∷◌, IsTrue, true, false, length, take, drop, IfOk, OnOk, OnErr, IfErr, IfSome, Some, None, ◌⊎◌};
ghost use Rattle.mr_base.specs.Disk.{Tells, present, file_of, IsAtRest, HasRisen};
ghost use Rattle.mr_base.specs.Calls.{Same, Rises, Reads, During, OneFile, Counts};
ghost use Rattle.mr_gate.specs.Log.{records_from, end_from, is_damaged_from, record_bytes};
ghost use Rattle.mr_gate.specs.Gate.{Stands, IsNext, KeepsLog, IsDamage, SaysDamage, IsBeforeOrAfter, IsAfter, Reaches, OnlyReads, IsUntouched, HasNoRoom, appended, closed, full, next_size};

use crate::appending::add;
use crate::frame::HEAD;
use crate::opening::{find_end, repair};
use crate::reading::record_at;
use mr_base::{Blob, Disk, FullKind, Stop};
use std::alloc::Global;
use std::marker::Model;

/// A log in one file of a disk, counted from a place on. After a call that stopped it is closed, and opened again from
/// the file.
#[derive(Drop)]
pub struct GateLog {
    file: u64,
    from: u64,
    end: u64,
    records: u64,
    limit: u64,
    is_open: bool,
}

impl Model for GateLog {
    ghost use Rattle.std.specs.Prelude.{◌+◌, ◌*◌, ◌^◌, ◌<◌, ◌≤◌};
    ghost use Rattle.mr_gate.specs.Gate.{Gate};

    ghost Value = { Gate };

    ghost view = { λ g. record { file = g.file; from = g.from; end = g.end; records = g.records; limit = g.limit; is_open = g.is_open } };

    ghost invariant = { λ g. (g.end + 1 < 2 ^ 64) × (g.from + 5 * g.records ≤ g.end) };
}

impl GateLog {
    /// Finds the last record from a place on, and repairs the end behind it. `limit` is the length in bytes that the file
    /// is not to pass.
    pub fn open<D: Disk>(disk: &mut D, file: u64, from: u64, limit: u64) -> Result<GateLog, Stop>
        ensures rises { Rises 2 (D.disk disk.old) (D.disk disk.new) }
        ensures reads { Tells (D.disk disk.old) → Reads (length (records_from from (file_of (D.disk disk.old) file).bytes) + 1)
            (5 * (length (records_from from (file_of (D.disk disk.old) file).bytes) + 1)) (D.disk disk.old) (D.disk disk.new) }
        ensures failed { result ≡ Err Stop.Disk → HasRisen (D.disk disk.old).faults (D.disk disk.new).faults }
        ensures answers { IfErr result (λ e. (e ≡ Stop.Disk) ⊎ (SaysDamage file e × OnlyReads (D.disk disk.old) (D.disk disk.new))) }
        // There is damage exactly where it says so.
        ensures damaged { Tells (D.disk disk.old) → IfErr result (λ e. (e ≡ Stop.Disk) ⊎ IsDamage file from (file_of (D.disk disk.old) file).bytes e) }
        ensures sound { Tells (D.disk disk.old) → OnOk result (is_damaged_from from (file_of (D.disk disk.old) file).bytes ≡ false) }
        // A damaged log is left as it is, whatever the answer.
        ensures left { Tells (D.disk disk.old) → is_damaged_from from (file_of (D.disk disk.old) file).bytes ≡ true
            → OnlyReads (D.disk disk.old) (D.disk disk.new) }

        ensures is_open { IfOk result (λ log. (log.is_open ≡ true) × (log.file ≡ file) × (log.from ≡ from) × (log.limit ≡ limit)) }
        ensures ahead { IfOk result (λ log. from + 5 * log.records ≤ log.end) }
        ensures stands { Tells (D.disk disk.old) → IfOk result (λ log. Stands log (file_of (D.disk disk.new) file).bytes) }
        ensures end { Tells (D.disk disk.old) → IfOk result (λ log. log.end ≡ end_from from (file_of (D.disk disk.old) file).bytes) }
        // The bytes up to the end stay, and a closed gate follows.
        ensures bytes { Tells (D.disk disk.old) → OnOk result ((file_of (D.disk disk.new) file).bytes
            ≡ take (end_from from (file_of (D.disk disk.old) file).bytes) (file_of (D.disk disk.old) file).bytes ++ 0 ∷ []) }
        ensures kept { Tells (D.disk disk.old) → OnOk result (KeepsLog (end_from from (file_of (D.disk disk.old) file).bytes)
            (file_of (D.disk disk.old) file).bytes (file_of (D.disk disk.new) file).bytes) }
        ensures durable { Tells (D.disk disk.old) → OnOk result (IsAtRest (file_of (D.disk disk.old) file) ⊎ ((file_of (D.disk disk.old) file).bytes ≡ [])
            → IsAtRest (file_of (D.disk disk.new) file)) }
        // Where a closed gate stands alone at the end there is nothing to repair.
        ensures clean { Tells (D.disk disk.old) → drop (end_from from (file_of (D.disk disk.old) file).bytes) (file_of (D.disk disk.old) file).bytes ≡ 0 ∷ []
            → OnlyReads (D.disk disk.old) (D.disk disk.new) }

        // A crash at any moment leaves the records that it found, and the other files as they were.
        ensures any_moment { Tells (D.disk disk.old) → During (D.disk disk.old) (D.disk disk.new) (OneFile file (present (D.disk disk.old))
            (λ c. IsAtRest (file_of (D.disk disk.old) file)
            → KeepsLog (end_from from (file_of (D.disk disk.old) file).bytes) (file_of (D.disk disk.old) file).bytes c)) }
    {
        let length = disk.length(file)?;
        let found = find_end(disk, file, from, length)?;
        repair(disk, file, length, found.place, found.gate)?;
        Ok(GateLog {
            file,
            from,
            end: found.place,
            records: found.records,
            limit,
            is_open: true,
        })
    }

    /// Adds a record, whose body has at most 2^29 bytes, and answers its place. After an `Err` the log is closed.
    pub fn append<D: Disk>(&mut self, disk: &mut D, body: &[u8]) -> Result<u64, Stop>
        requires is_open { IsTrue self.old.is_open }
        requires body { length body.now ≤ 2 ^ 29 }
        requires stands { Tells (D.disk disk.old) → Stands self.old (file_of (D.disk disk.old) self.old.file).bytes }

        ensures place { OnOk result (result ≡ Ok self.old.end) }
        ensures ok { OnOk result (self.new ≡ appended self.old (length body.now)) }
        ensures err { OnErr result (self.new ≡ closed self.old) }
        ensures counts { Counts 0 0 2 (D.disk disk.old) (D.disk disk.new) }
        ensures failed { result ≡ Err Stop.Disk → HasRisen (D.disk disk.old).faults (D.disk disk.new).faults }
        // It is full exactly where the record would take the file past the limit, and then nothing is written.
        ensures answers { IfErr result (λ e. (e ≡ Stop.Disk) ⊎ ((e ≡ full self.old) × HasNoRoom self.old (length body.now))) }
        ensures full { HasNoRoom self.old (length body.now) → (result ≡ Err (full self.old)) × IsUntouched (D.disk disk.old) (D.disk disk.new) }

        // It stands for the records from before and the new one.
        ensures stands { Tells (D.disk disk.old) → OnOk result (Stands self.new (file_of (D.disk disk.new) self.old.file).bytes) }
        ensures bytes { Tells (D.disk disk.old) → OnOk result ((file_of (D.disk disk.new) self.old.file).bytes
            ≡ take self.old.end (file_of (D.disk disk.old) self.old.file).bytes ++ record_bytes body.now ++ 0 ∷ []) }
        ensures added { Tells (D.disk disk.old) → OnOk result (IsAfter self.old.end body.now (file_of (D.disk disk.old) self.old.file).bytes (file_of (D.disk disk.new) self.old.file).bytes) }
        ensures durable { Tells (D.disk disk.old) → OnOk result (IsAtRest (file_of (D.disk disk.new) self.old.file)) }

        // A crash at any moment leaves the records from before, or these and the new one, and the other files as they were.
        ensures any_moment { Tells (D.disk disk.old) → During (D.disk disk.old) (D.disk disk.new) (OneFile self.old.file (present (D.disk disk.old))
            (λ c. IsAtRest (file_of (D.disk disk.old) self.old.file)
            → IsBeforeOrAfter self.old.end body.now (file_of (D.disk disk.old) self.old.file).bytes c)) }
    {
        self.is_open = false;
        let length = self.end + 1;
        let needed = body.len() as u64 + HEAD;
        if self.limit.saturating_sub(length) < needed {
            return Err(Stop::Full {
                what: FullKind::Log(self.file),
                at: length,
                limit: self.limit,
            });
        }
        let place = self.end;
        add(disk, self.file, place, body)?;
        self.end += needed;
        self.records += 1;
        self.is_open = true;
        Ok(place)
    }

    /// The body of the record at a place, and the next place. None comes exactly at the end of the records.
    pub fn read_record<D: Disk>(
        &self,
        alloc: Global,
        disk: &mut D,
        at: u64,
    ) -> Result<Option<(Blob, u64)>, Stop>
        requires is_open { IsTrue self.now.is_open }
        requires stands { Tells (D.disk disk.old) → Stands self.now (file_of (D.disk disk.old) self.now.file).bytes }
        ensures counts { Counts 2 (5 + 2 ^ 29) 0 (D.disk disk.old) (D.disk disk.new) }
        ensures failed { result ≡ Err Stop.Disk → HasRisen (D.disk disk.old).faults (D.disk disk.new).faults }
        ensures same { Tells (D.disk disk.old) → Same (D.disk disk.old) (D.disk disk.new) }
        ensures answers { IfErr result (λ e. (e ≡ Stop.Disk) ⊎ ((e ≡ Stop.Memory) ⊎ (e ≡ Stop.Damaged self.now.file at))) }
        ensures at_end { at ≡ self.now.end → (result ≡ Ok None) × IsUntouched (D.disk disk.old) (D.disk disk.new) }
        ensures only_at_end { result ≡ Ok None → at ≡ self.now.end }
        ensures ahead { IfOk result (λ o. IfSome o (λ r. (r.1 ≡ at + (5 + length r.0)) × (r.1 ≤ self.now.end))) }

        // At a place where a record begins, or the records end:
        ensures read { Tells (D.disk disk.old) → Reaches self.now.end at (file_of (D.disk disk.old) self.now.file).bytes
            → IfOk result (IsNext at (file_of (D.disk disk.old) self.now.file).bytes) }
        ensures err { Tells (D.disk disk.old) → Reaches self.now.end at (file_of (D.disk disk.old) self.now.file).bytes
            → IfErr result (λ e. (e ≡ Stop.Disk) ⊎ (e ≡ Stop.Memory)) }
        ensures cost { Tells (D.disk disk.old) → Reaches self.now.end at (file_of (D.disk disk.old) self.now.file).bytes
            → Reads 2 (next_size at (file_of (D.disk disk.old) self.now.file).bytes) (D.disk disk.old) (D.disk disk.new) }
    {
        record_at(alloc, disk, self.file, self.end, at)
    }

    /// Closes it, as a call that stopped does.
    pub fn close(&mut self)
        ensures { self.new ≡ closed self.old }
    {
        self.is_open = false;
    }

    /// How many records there are from the first place on.
    pub fn records(&self) -> u64
        ensures records { result ≡ self.now.records }
        ensures few { self.now.from + 5 * self.now.records + 1 < 2 ^ 64 }
    {
        self.records
    }

    /// The place where the records end, and the next one will begin.
    pub fn end(&self) -> u64
        ensures end { result ≡ self.now.end }
        ensures bounded { self.now.end + 1 < 2 ^ 64 }
    {
        self.end
    }

    /// The number of its file.
    pub fn file(&self) -> u64
        ensures { result ≡ self.now.file }
    {
        self.file
    }

    /// The length in bytes that the file is not to pass.
    pub fn limit(&self) -> u64
        ensures { result ≡ self.now.limit }
    {
        self.limit
    }

    /// Whether no call on it stopped.
    pub fn is_open(&self) -> bool
        ensures { result ≡ self.now.is_open }
    {
        self.is_open
    }
}
