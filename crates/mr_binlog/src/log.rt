//! The binary log: file 1, a log of commits.

ghost use Rattle.std.specs.Prelude.{◌≡◌, ◌≤◌, ◌<◌, ◌+◌, ◌*◌, ◌^◌, ◌++◌, [], ◌∷◌, IsTrue, true, false, length, take, drop, IfOk, OnOk, OnErr, IfErr, IfSome, IsErr, Ok, Err, None, ◌⊎◌};
ghost use Rattle.std.specs.List.{list_all};
ghost use Rattle.mr_fields.specs.Fields.{is_byte};
ghost use Rattle.mr_base.specs.Disk.{Tells, present, file_of, IsAtRest, HasRisen};
ghost use Rattle.mr_base.specs.Calls.{Same, Rises, Reads, During, OneFile, Counts};
ghost use Rattle.mr_gate.specs.Log.{records_from, end_from, is_damaged_from, record_bytes};
ghost use Rattle.mr_gate.specs.Gate.{Stands, KeepsLog, IsDamage, SaysDamage, IsBeforeOrAfter, IsAfter, Reaches, OnlyReads, IsUntouched, HasNoRoom, full, next_size};
ghost use Rattle.mr_binlog.specs.CommitForm.{commit_bytes, reads_commit};
ghost use Rattle.mr_binlog.specs.Commits.{IsNextCommit, IsNoCommit, IsOffence, SaysOffence, IsRead};
ghost use Rattle.mr_binlog.specs.Counting.{commits as count_of, with_body, stopped};

use crate::commit_read::read_commit;
use mr_base::{DefAnswer, Disk, FullKind, Stop};
use mr_gate::GateLog;
use mr_types::Commit;
use std::alloc::Global;
use std::marker::Model;

/// The binary log is this file.
pub const BINARY_LOG: u64 = 1;

/// The bytes of a record in front of its body: a gate, and the body's length.
const RECORD_HEAD: u64 = 5;

/// The binary log from a place on. After a call that stopped it is closed, and opened again from the
/// file.
#[derive(Drop)]
pub struct Binlog {
    log: GateLog,
    before: u64,
}

impl Model for Binlog {
    ghost use Rattle.std.specs.Prelude.{◌≡◌, ◌≤◌};
    ghost use Rattle.mr_binlog.specs.Counting.{Counted};

    ghost Value = { Counted };

    ghost view = { λ b. record { gate = b.log; before = b.before } };

    ghost invariant = { λ b. (b.log.file ≡ 1) × (b.before ≤ b.log.from) };
}

/// The commit that a body is, whose record begins at this place; any other body is damage at the place of its first offence.
fn commit_of(alloc: Global, at: u64, body: &[u8]) -> Result<Commit, Stop>
    requires fits { at + 5 + length body.now < 2 ^ 64 }
    ensures ok { IfOk result (λ c. reads_commit body.now ≡ Ok c) }
    ensures form { IfOk result (λ c. body.now ≡ commit_bytes c) }
    ensures bytes { IfOk result (λ c. list_all is_byte (commit_bytes c) ≡ true) }
    ensures err { IfErr result (λ e. (e ≡ Stop.Memory) ⊎ IsOffence at body.now e) }
{
    match read_commit(alloc, body) {
        Ok(commit) => Ok(commit),
        Err(DefAnswer::Memory) => Err(Stop::Memory),
        Err(DefAnswer::Malformed(place)) => Err(Stop::Damaged {
            file: BINARY_LOG,
            at: at + RECORD_HEAD + place,
        }),
    }
}

impl Binlog {
    /// Finds the last commit from a place on, before which there are so many commits, and repairs the
    /// end behind it. `limit` is the length in bytes that the file is not to pass.
    pub fn open_from<D: Disk>(
        disk: &mut D,
        place: u64,
        commits: u64,
        limit: u64,
    ) -> Result<Binlog, Stop>
        requires count { commits ≤ place }
        ensures rises { Rises 2 (D.disk disk.old) (D.disk disk.new) }
        ensures reads { Tells (D.disk disk.old) → Reads (length (records_from place (file_of (D.disk disk.old) 1).bytes) + 1)
            (5 * (length (records_from place (file_of (D.disk disk.old) 1).bytes) + 1)) (D.disk disk.old) (D.disk disk.new) }
        ensures failed { result ≡ Err Stop.Disk → HasRisen (D.disk disk.old).faults (D.disk disk.new).faults }
        ensures answers { IfErr result (λ e. (e ≡ Stop.Disk) ⊎ (SaysDamage 1 e × OnlyReads (D.disk disk.old) (D.disk disk.new))) }
        // There is damage of the log exactly where it says so.
        ensures damaged { Tells (D.disk disk.old) → IfErr result (λ e. (e ≡ Stop.Disk) ⊎ IsDamage 1 place (file_of (D.disk disk.old) 1).bytes e) }
        ensures sound { Tells (D.disk disk.old) → OnOk result (is_damaged_from place (file_of (D.disk disk.old) 1).bytes ≡ false) }
        // A damaged log is left as it is, whatever the answer.
        ensures left { Tells (D.disk disk.old) → is_damaged_from place (file_of (D.disk disk.old) 1).bytes ≡ true
            → OnlyReads (D.disk disk.old) (D.disk disk.new) }

        ensures before { IfOk result (λ log. log.before ≡ commits) }
        ensures is_open { IfOk result (λ log. (log.gate.is_open ≡ true) × (log.gate.file ≡ 1) × (log.gate.from ≡ place) × (log.gate.limit ≡ limit)) }
        ensures stands { Tells (D.disk disk.old) → IfOk result (λ log. Stands log.gate (file_of (D.disk disk.new) 1).bytes) }
        ensures end { Tells (D.disk disk.old) → IfOk result (λ log. log.gate.end ≡ end_from place (file_of (D.disk disk.old) 1).bytes) }
        // The bytes up to the end stay, and a closed gate follows.
        ensures bytes { Tells (D.disk disk.old) → OnOk result ((file_of (D.disk disk.new) 1).bytes
            ≡ take (end_from place (file_of (D.disk disk.old) 1).bytes) (file_of (D.disk disk.old) 1).bytes ++ 0 ∷ []) }
        ensures kept { Tells (D.disk disk.old) → OnOk result (KeepsLog (end_from place (file_of (D.disk disk.old) 1).bytes)
            (file_of (D.disk disk.old) 1).bytes (file_of (D.disk disk.new) 1).bytes) }
        ensures durable { Tells (D.disk disk.old) → OnOk result (IsAtRest (file_of (D.disk disk.old) 1) ⊎ ((file_of (D.disk disk.old) 1).bytes ≡ [])
            → IsAtRest (file_of (D.disk disk.new) 1)) }
        // Where a closed gate stands alone at the end there is nothing to repair.
        ensures clean { Tells (D.disk disk.old) → drop (end_from place (file_of (D.disk disk.old) 1).bytes) (file_of (D.disk disk.old) 1).bytes ≡ 0 ∷ []
            → OnlyReads (D.disk disk.old) (D.disk disk.new) }

        // A crash at any moment leaves the records that it found, and the other files as they were.
        ensures any_moment { Tells (D.disk disk.old) → During (D.disk disk.old) (D.disk disk.new) (OneFile 1 (present (D.disk disk.old))
            (λ c. IsAtRest (file_of (D.disk disk.old) 1)
            → KeepsLog (end_from place (file_of (D.disk disk.old) 1).bytes) (file_of (D.disk disk.old) 1).bytes c)) }
    {
        let log = GateLog::open(disk, BINARY_LOG, place, limit)?;
        Ok(Binlog {
            log,
            before: commits,
        })
    }

    /// Adds a commit, whose body has at most 2^29 bytes, and answers its number, counted from 1. After
    /// an `Err` the log is closed.
    pub fn append<D: Disk>(&mut self, disk: &mut D, body: &[u8]) -> Result<u64, Stop>
        requires is_open { IsTrue self.old.gate.is_open }
        requires body { length body.now ≤ 2 ^ 29 }
        requires stands { Tells (D.disk disk.old) → Stands self.old.gate (file_of (D.disk disk.old) 1).bytes }

        ensures number { OnOk result (result ≡ Ok (count_of self.old + 1)) }
        ensures ok { OnOk result (self.new ≡ with_body self.old (length body.now)) }
        ensures err { OnErr result (self.new ≡ stopped self.old) }
        ensures counts { Counts 0 0 2 (D.disk disk.old) (D.disk disk.new) }
        ensures failed { result ≡ Err Stop.Disk → HasRisen (D.disk disk.old).faults (D.disk disk.new).faults }
        // It is full exactly where the record would take the file past the limit, and then nothing is written.
        ensures answers { IfErr result (λ e. (e ≡ Stop.Disk) ⊎ ((e ≡ full self.old.gate) × HasNoRoom self.old.gate (length body.now))) }
        ensures full { HasNoRoom self.old.gate (length body.now) → (result ≡ Err (full self.old.gate)) × IsUntouched (D.disk disk.old) (D.disk disk.new) }

        // It stands for the records from before and the new one.
        ensures stands { Tells (D.disk disk.old) → OnOk result (Stands self.new.gate (file_of (D.disk disk.new) 1).bytes) }
        ensures bytes { Tells (D.disk disk.old) → OnOk result ((file_of (D.disk disk.new) 1).bytes
            ≡ take self.old.gate.end (file_of (D.disk disk.old) 1).bytes ++ record_bytes body.now ++ 0 ∷ []) }
        ensures added { Tells (D.disk disk.old) → OnOk result (IsAfter self.old.gate.end body.now (file_of (D.disk disk.old) 1).bytes (file_of (D.disk disk.new) 1).bytes) }
        ensures durable { Tells (D.disk disk.old) → OnOk result (IsAtRest (file_of (D.disk disk.new) 1)) }

        // A crash at any moment leaves the records from before, or these and the new one, and the other files as they were.
        ensures any_moment { Tells (D.disk disk.old) → During (D.disk disk.old) (D.disk disk.new) (OneFile 1 (present (D.disk disk.old))
            (λ c. IsAtRest (file_of (D.disk disk.old) 1)
            → IsBeforeOrAfter self.old.gate.end body.now (file_of (D.disk disk.old) 1).bytes c)) }
    {
        self.log.append(disk, body)?;
        Ok(self.commits())
    }

    /// The commit at a place, and the next place. None comes exactly at the end of the commits. A body
    /// that is no commit is damage at the place of its first offence: five bytes behind its record's
    /// place stands the body's first byte. A record that has no whole body is damage at its own place.
    pub fn read<D: Disk>(
        &self,
        alloc: Global,
        disk: &mut D,
        at: u64,
    ) -> Result<Option<(Commit, u64)>, Stop>
        requires is_open { IsTrue self.now.gate.is_open }
        requires stands { Tells (D.disk disk.old) → Stands self.now.gate (file_of (D.disk disk.old) 1).bytes }
        ensures counts { Counts 2 (5 + 2 ^ 29) 0 (D.disk disk.old) (D.disk disk.new) }
        ensures failed { result ≡ Err Stop.Disk → HasRisen (D.disk disk.old).faults (D.disk disk.new).faults }
        ensures same { Tells (D.disk disk.old) → Same (D.disk disk.old) (D.disk disk.new) }
        ensures answers { IfErr result (λ e. (e ≡ Stop.Disk) ⊎ ((e ≡ Stop.Memory) ⊎ ((e ≡ Stop.Damaged 1 at) ⊎ SaysOffence at self.now.gate.end e))) }
        ensures at_end { at ≡ self.now.gate.end → (result ≡ Ok None) × IsUntouched (D.disk disk.old) (D.disk disk.new) }
        ensures only_at_end { result ≡ Ok None → at ≡ self.now.gate.end }
        ensures ahead { IfOk result (λ o. IfSome o (λ r. IsRead at r.0 r.1 × (r.1 ≤ self.now.gate.end))) }

        // At a place where a record begins, or the records end:
        ensures read { Tells (D.disk disk.old) → Reaches self.now.gate.end at (file_of (D.disk disk.old) 1).bytes
            → IfOk result (IsNextCommit at (file_of (D.disk disk.old) 1).bytes) }
        ensures err { Tells (D.disk disk.old) → Reaches self.now.gate.end at (file_of (D.disk disk.old) 1).bytes
            → IfErr result (λ e. (e ≡ Stop.Disk) ⊎ ((e ≡ Stop.Memory) ⊎ IsNoCommit at (file_of (D.disk disk.old) 1).bytes e)) }
        ensures cost { Tells (D.disk disk.old) → Reaches self.now.gate.end at (file_of (D.disk disk.old) 1).bytes
            → Reads 2 (next_size at (file_of (D.disk disk.old) 1).bytes) (D.disk disk.old) (D.disk disk.new) }
    {
        match self.log.read_record(alloc, disk, at)? {
            Some((body, next)) => {
                let commit = commit_of(alloc, at, body.as_slice())?;
                Ok(Some((commit, next)))
            }
            None => Ok(None),
        }
    }

    /// Whether `append` of a body of so many bytes would find room: it is full exactly where that
    /// would answer so.
    pub fn room(&self, body: u64) -> Result<(), Stop>
        ensures full { HasNoRoom self.now.gate body → result ≡ Err (full self.now.gate) }
        ensures err { IfErr result (λ e. (e ≡ full self.now.gate) × HasNoRoom self.now.gate body) }
    {
        let length = self.log.end() + 1;
        let left = self.log.limit().saturating_sub(length);
        if left < RECORD_HEAD || left - RECORD_HEAD < body {
            return Err(Stop::Full {
                what: FullKind::Log(BINARY_LOG),
                at: length,
                limit: self.log.limit(),
            });
        }
        Ok(())
    }

    /// How many commits there are, those before its first place among them.
    pub fn commits(&self) -> u64
        ensures { result ≡ count_of self.now }
    {
        self.before + self.log.records()
    }

    /// Whether no call on it stopped.
    pub fn is_open(&self) -> bool
        ensures { result ≡ self.now.gate.is_open }
    {
        self.log.is_open()
    }

    /// The place where the commits end, and the next one will begin.
    pub fn end(&self) -> u64
        ensures { result ≡ self.now.gate.end }
    {
        self.log.end()
    }
}
