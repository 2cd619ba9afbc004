//! The manifest as an open log.
ghost use Rattle.std.specs.Prelude.{◌≡◌, ◌≤◌, ◌<◌, ◌+◌, ◌-◌, ◌^◌, ◌++◌, [], ◌∷◌, IsTrue, true, false, length, take, drop, min, IfOk, OnOk, OnErr, IfErr, IfSome, Ok, Err, Some, None, ℕ, ◌⊎◌};
ghost use Rattle.mr_base.specs.Disk.{Tells, present, file_of, IsAtRest, HasRisen};
ghost use Rattle.mr_base.specs.Calls.{Rises, During, OneFile, Counts};
ghost use Rattle.mr_gate.specs.Log.{records_from, end_from, record_bytes, span};
ghost use Rattle.mr_gate.specs.Gate.{Stands, KeepsLog, SaysDamage, OnlyReads, IsUntouched, HasNoRoom, full};
ghost use Rattle.mr_manifest.specs.Edits.{edits_bytes, edit_size, edits_size, AllFit};
ghost use Rattle.mr_manifest.specs.Live.{live_after};
ghost use Rattle.mr_manifest.specs.Manifest.{manifest_of, IsManifest, IsManifestDamage, IsDamagedAt, StandsFor, IsOldOrNew, with_record, with_edits, stopped, takes, taken, HasNoNumbers, no_numbers, IsRefusal, IsAllowed, OpeningReads};

use crate::edit::{Edit, MAX_NUMBER};
use crate::edit_write::write_edits;
use crate::live::{Live, apply_edits, copy_live};
use crate::reading::{MANIFEST, read_manifest};
use mr_base::{Blob, Disk, FullKind, Memory, Stop};
use mr_gate::GateLog;
use std::alloc::Global;
use std::marker::Model;

/// The length in bytes that the manifest is not to pass, 2^40.
pub const MANIFEST_LIMIT: u64 = 1 << 40;

/// The greatest length of a record's body.
const MAX_BODY: u64 = 1 << 29;

/// The bytes of a record in front of its body.
const RECORD_HEAD: u64 = 5;

/// An open manifest. After a call that stopped it is closed, and opened again from the file.
#[derive(Drop)]
pub struct Manifest {
    log: GateLog,
    live: Live,
}

impl Model for Manifest {
    ghost use Rattle.std.specs.Prelude.{◌≡◌, ◌^◌};
    ghost use Rattle.mr_manifest.specs.Manifest.{Opened};

    ghost Value = { Opened };

    ghost view = { λ m. record { gate = m.log; live = m.live } };

    ghost invariant = { λ m. (m.log.file ≡ 0) × (m.log.from ≡ 0) × (m.log.limit ≡ 2 ^ 40) };
}

/// How many file numbers an edit takes.
fn takes_of(edit: &Edit) -> u64
    ensures { result ≡ takes edit.now }
{
    match *edit {
        Edit::RunAdded { .. } => 1,
        Edit::LiveLog(_) => 1,
        _ => 0,
    }
}

/// How many file numbers edits take, at most 2^64 - 1.
fn taken_by(edits: &[Edit]) -> u64
    ensures { result ≡ min (2 ^ 64 - 1) (taken edits.now) }
{
    let mut count: u64 = 0;
    'taking: for edit in edits {
        count = count.saturating_add(takes_of(edit));
    }
    count
}

/// How many bytes an edit is.
fn bytes_of(edit: &Edit) -> u64
    ensures { result ≡ edit_size edit.now }
{
    match *edit {
        Edit::RunAdded { .. } => 30,
        Edit::BinlogPlace { .. } => 17,
        Edit::Format(_) => 5,
        _ => 9,
    }
}

/// How many bytes edits are, at most 2^64 - 1.
fn size_of(edits: &[Edit]) -> u64
    ensures { result ≡ min (2 ^ 64 - 1) (edits_size edits.now) }
{
    let mut size: u64 = 0;
    'sizing: for edit in edits {
        size = size.saturating_add(bytes_of(edit));
    }
    size
}

/// The body of a record of these edits, and what is live after them.
fn prepare(alloc: Global, live: &Live, edits: &[Edit]) -> Result<(Blob, Live), Memory>
    ensures body { IfOk result (λ p. p.0 ≡ edits_bytes edits.now) }
    ensures live { IfOk result (λ p. p.1 ≡ live_after edits.now live.now) }
{
    let body = write_edits(alloc, edits)?;
    let mut after = copy_live(alloc, live)?;
    apply_edits(alloc, &mut after, edits)?;
    Ok((body, after))
}

impl Manifest {
    /// Reads all records, and repairs the end behind them. Takes memory. A damaged manifest is left as it is.
    pub fn open<D: Disk>(alloc: Global, disk: &mut D) -> Result<Manifest, Stop>
        ensures rises { Rises 2 (D.disk disk.old) (D.disk disk.new) }
        ensures reads { Tells (D.disk disk.old) → OpeningReads (length (records_from 0 (file_of (D.disk disk.old) 0).bytes))
            (span (records_from 0 (file_of (D.disk disk.old) 0).bytes)) (D.disk disk.old) (D.disk disk.new) }
        ensures failed { result ≡ Err Stop.Disk → HasRisen (D.disk disk.old).faults (D.disk disk.new).faults }
        ensures answers { IfErr result (λ e. (e ≡ Stop.Disk) ⊎ (((e ≡ Stop.Memory) ⊎ SaysDamage 0 e) × OnlyReads (D.disk disk.old) (D.disk disk.new))) }
        // There is damage exactly where it says so.
        ensures damaged { Tells (D.disk disk.old) → IfErr result (λ e. (e ≡ Stop.Disk) ⊎ ((e ≡ Stop.Memory) ⊎ IsManifestDamage (file_of (D.disk disk.old) 0).bytes e)) }
        ensures sound { Tells (D.disk disk.old) → IfOk result (λ m. IsManifest (file_of (D.disk disk.old) 0).bytes m.live) }
        // A damaged manifest is left as it is, whatever the answer.
        ensures left { Tells (D.disk disk.old) → (place : ℕ) → IsDamagedAt (file_of (D.disk disk.old) 0).bytes place
            → OnlyReads (D.disk disk.old) (D.disk disk.new) }

        ensures is_open { IfOk result (λ m. (m.gate.is_open ≡ true) × (m.gate.file ≡ 0) × (m.gate.from ≡ 0) × (m.gate.limit ≡ 2 ^ 40)) }
        ensures stands { Tells (D.disk disk.old) → IfOk result (λ m. StandsFor m (file_of (D.disk disk.new) 0).bytes) }
        ensures end { Tells (D.disk disk.old) → IfOk result (λ m. m.gate.end ≡ end_from 0 (file_of (D.disk disk.old) 0).bytes) }
        // The bytes up to the end stay, and a closed gate follows.
        ensures bytes { Tells (D.disk disk.old) → OnOk result ((file_of (D.disk disk.new) 0).bytes
            ≡ take (end_from 0 (file_of (D.disk disk.old) 0).bytes) (file_of (D.disk disk.old) 0).bytes ++ 0 ∷ []) }
        ensures durable { Tells (D.disk disk.old) → OnOk result (IsAtRest (file_of (D.disk disk.old) 0) ⊎ ((file_of (D.disk disk.old) 0).bytes ≡ [])
            → IsAtRest (file_of (D.disk disk.new) 0)) }
        // Where a closed gate stands alone at the end there is nothing to repair.
        ensures clean { Tells (D.disk disk.old) → drop (end_from 0 (file_of (D.disk disk.old) 0).bytes) (file_of (D.disk disk.old) 0).bytes ≡ 0 ∷ []
            → OnlyReads (D.disk disk.old) (D.disk disk.new) }

        // A crash at any moment leaves the records that it found, and the other files as they were.
        ensures any_moment { Tells (D.disk disk.old) → During (D.disk disk.old) (D.disk disk.new) (OneFile 0 (present (D.disk disk.old))
            (λ c. IsAtRest (file_of (D.disk disk.old) 0) → manifest_of c ≡ manifest_of (file_of (D.disk disk.old) 0).bytes)) }
    {
        let sum = read_manifest(alloc, disk)?;
        let log = GateLog::open(disk, MANIFEST, 0, MANIFEST_LIMIT)?;
        Ok(Manifest {
            log,
            live: sum.live,
        })
    }

    /// Why edits are not to be appended: first that they take more file numbers than there are, then that the log has no
    /// room, then that their body is too long.
    fn refusal(&self, edits: &[Edit]) -> Option<Stop>
        ensures refused { IfSome result (IsRefusal self.now edits.now) }
        ensures allowed { result ≡ None → IsAllowed self.now edits.now }
        ensures numbers { HasNoNumbers self.now edits.now → result ≡ Some (no_numbers self.now) }
        ensures room { (HasNoNumbers self.now edits.now → ⊥) → HasNoRoom self.now.gate (edits_size edits.now) → result ≡ Some (full self.now.gate) }
        ensures long { (HasNoNumbers self.now edits.now → ⊥) → (HasNoRoom self.now.gate (edits_size edits.now) → ⊥) → 2 ^ 29 < edits_size edits.now → result ≡ Some Stop.Memory }
    {
        let next = self.live.next_file;
        if next > MAX_NUMBER || MAX_NUMBER - next < taken_by(edits) {
            return Some(Stop::Full {
                what: FullKind::File,
                at: next,
                limit: MAX_NUMBER,
            });
        }
        let size = size_of(edits);
        let length = self.log.end() + 1;
        let left = self.log.limit().saturating_sub(length);
        if left < RECORD_HEAD || left - RECORD_HEAD < size {
            return Some(Stop::Full {
                what: FullKind::Log(MANIFEST),
                at: length,
                limit: self.log.limit(),
            });
        }
        if size > MAX_BODY {
            return Some(Stop::Memory);
        }
        None
    }

    /// Adds a record of edits. It is full where they take more file numbers than there are, and then where the record would
    /// take the file past its limit. Takes memory, and edits of more than 2^29 bytes are want of it. Then nothing is
    /// written. After an `Err` the manifest is closed.
    pub fn append<D: Disk>(
        &mut self,
        alloc: Global,
        disk: &mut D,
        edits: &[Edit],
    ) -> Result<(), Stop>
        requires is_open { IsTrue self.old.gate.is_open }
        requires stands { Tells (D.disk disk.old) → Stands self.old.gate (file_of (D.disk disk.old) 0).bytes }

        ensures ok { OnOk result (self.new ≡ with_edits self.old edits.now) }
        ensures err { OnErr result (self.new.gate.is_open ≡ false) }
        ensures counts { Counts 0 0 2 (D.disk disk.old) (D.disk disk.new) }
        ensures failed { result ≡ Err Stop.Disk → HasRisen (D.disk disk.old).faults (D.disk disk.new).faults }
        ensures answers { IfErr result (λ e. (e ≡ Stop.Disk) ⊎ (IsRefusal self.old edits.now e × IsUntouched (D.disk disk.old) (D.disk disk.new))) }
        ensures numbers { HasNoNumbers self.old edits.now → (result ≡ Err (no_numbers self.old)) × IsUntouched (D.disk disk.old) (D.disk disk.new) }
        ensures full { (HasNoNumbers self.old edits.now → ⊥) → HasNoRoom self.old.gate (edits_size edits.now)
            → (result ≡ Err (full self.old.gate)) × IsUntouched (D.disk disk.old) (D.disk disk.new) }
        ensures long { (HasNoNumbers self.old edits.now → ⊥) → (HasNoRoom self.old.gate (edits_size edits.now) → ⊥) → 2 ^ 29 < edits_size edits.now
            → (result ≡ Err Stop.Memory) × IsUntouched (D.disk disk.old) (D.disk disk.new) }

        // It stands for the records from before and the new one.
        ensures stands { Tells (D.disk disk.old) → OnOk result (Stands self.new.gate (file_of (D.disk disk.new) 0).bytes) }
        ensures bytes { Tells (D.disk disk.old) → OnOk result ((file_of (D.disk disk.new) 0).bytes
            ≡ take self.old.gate.end (file_of (D.disk disk.old) 0).bytes ++ record_bytes (edits_bytes edits.now) ++ 0 ∷ []) }
        ensures added { Tells (D.disk disk.old) → AllFit edits.now → OnOk result (manifest_of (file_of (D.disk disk.new) 0).bytes
            ≡ with_record self.old.gate.end edits.now (manifest_of (file_of (D.disk disk.old) 0).bytes)) }
        ensures durable { Tells (D.disk disk.old) → OnOk result (IsAtRest (file_of (D.disk disk.new) 0)) }

        // A crash at any moment leaves the records from before, or these and the new one, and the other files as they were.
        ensures any_moment { Tells (D.disk disk.old) → AllFit edits.now → During (D.disk disk.old) (D.disk disk.new) (OneFile 0 (present (D.disk disk.old))
            (λ c. IsAtRest (file_of (D.disk disk.old) 0) → IsOldOrNew self.old.gate.end edits.now (file_of (D.disk disk.old) 0).bytes c)) }
    {
        match self.refusal(edits) {
            None => {}
            Some(stop) => {
                self.log.close();
                return Err(stop);
            }
        }
        let Ok((body, live)) = prepare(alloc, &self.live, edits) else {
            self.log.close();
            return Err(Stop::Memory);
        };
        self.log.append(disk, body.as_slice())?;
        self.live = live;
        Ok(())
    }

    /// What is live.
    pub fn live(&self) -> &Live
        ensures { result.now ≡ self.now.live }
    {
        &self.live
    }

    /// Whether no call on it stopped.
    pub fn is_open(&self) -> bool
        ensures { result ≡ self.now.gate.is_open }
    {
        self.log.is_open()
    }
}
