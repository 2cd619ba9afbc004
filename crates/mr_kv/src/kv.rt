//! A store that is open.
ghost use Rattle.std.specs.Prelude.{◌≡◌, ◌≤◌, ◌<◌, ◌+◌, ◌^◌, ◌⊎◌, ℕ, length, IfOk, IfErr, IfSome, OnOk, Some, None, Ok, Err};
ghost use Rattle.std.specs.Option.{option_map};
ghost use Rattle.mr_base.specs.Disk.{State, Tells, Image, seen, file_of, IsAtRest};
ghost use Rattle.mr_base.specs.Calls.{Same, Counts};
ghost use Rattle.mr_iter.specs.Cursors.{MayStop};
ghost use Rattle.mr_iter.specs.Newest.{newest};
ghost use Rattle.mr_block.specs.Held.{version_held};
ghost use Rattle.mr_wal.specs.declared.record.WalBody.TheVariants.{Prepare as APrepare, Plain as APlain, Decided as ADecided};
ghost use Rattle.mr_levels.specs.Levels.{HasOffence};
ghost use Rattle.mr_levels.specs.Looks.{looked, Brings, HasKeyOffence, AreSorted};
ghost use Rattle.mr_engine_log.specs.Standing.{with_verdict, prepared, HasRoom, HasNoNumber, IsFullFor, IsAppendStop, IsRecordStop};
ghost use Rattle.mr_family.specs.Family.{IsWhole, reads_of, bytes_of, IsWarmFor};
ghost use Rattle.mr_family.specs.Parts.{cursor_at, IsViewAt};
ghost use Rattle.mr_families.specs.Known.{family_at};
ghost use Rattle.mr_families.specs.Changed.{OnlyAt};
ghost use Rattle.mr_stored.specs.Names.{IsNaming};
ghost use Rattle.mr_kv.specs.Store.{IsReady, Awaits, NamesPending, system, versions_in};
ghost use Rattle.mr_kv.specs.Batch.{IsMadeReady, HasBatch, AddsPending, IsAsBefore, HasWritten, Writes, next_record, size_next};

use mr_base::{Disk, Memory, Stop};
use mr_block::Found;
use mr_engine_log::EngineLog;
use mr_families::Families;
use mr_family::FamilyCursor;
use mr_iter::{Listed, place_in_first_child};
use mr_manifest::{Live, Manifest};
use mr_run_get::runs_lie_without_gaps;
use mr_store_memory::make_ready;
use mr_wal::Batch;
use std::alloc::Global;

/// A store that is open: what is live, the live engine log, and the families over memory and runs. After a call that answered `Disk` it is
/// not used; after `Memory` and `Full` it is as it was.
#[derive(Drop)]
pub struct Kv {
    pub(crate) manifest: Manifest,
    pub(crate) log: EngineLog,
    pub(crate) families: Families,
}

impl Kv {
    /// A store of an open manifest, its live engine log, and the families that both say.
    pub fn of(manifest: Manifest, log: EngineLog, families: Families) -> Kv
        ensures { result ≡ record { manifest = manifest; log = log; families = families } }
    {
        Kv {
            manifest,
            log,
            families,
        }
    }

    /// What is live by the manifest.
    pub fn live(&self) -> &Live
        ensures { result.now ≡ self.now.manifest.live }
    {
        self.manifest.live()
    }

    /// The commit number of the batch that is prepared and isn't decided.
    pub fn pending(&self) -> Option<u64>
        ensures { result ≡ option_map (λ p. p.commit) self.now.log.pending }
    {
        self.log.pending()
    }

    /// The last sequence number used: a view at it has all batches that count.
    pub fn snapshot(&self) -> u64
        ensures { result ≡ self.now.log.last }
    {
        self.log.last()
    }

    /// The length of the live engine log in bytes.
    pub fn live_log_bytes(&self) -> u64
        ensures { result ≡ self.now.log.gate.end + 1 }
    {
        self.log.bytes()
    }

    /// Answers `Full`, of the log and else of the sequence numbers, exactly where `prepare` of the batch would. Takes no memory and
    /// touches no disk.
    pub fn room(&self, batch: &Batch) -> Result<(), Stop>
        ensures ok { OnOk result ((k : ℕ) → HasRoom self.now.log (size_next self.now (APrepare k (self.now.log.last + 1) batch.now))) }
        ensures number { OnOk result (HasNoNumber self.now.log.last → ⊥) }
        ensures full { (k : ℕ) → IfErr result (IsFullFor self.now.log (size_next self.now (APrepare k (self.now.log.last + 1) batch.now))) }
    {
        self.log.room(batch)
    }

    /// Writes a batch, which counts at once: by at most two syncs it is whole on the disk, and then in its families. Each of its families
    /// has a record that names it, and no earlier record of this kind is replaced. The record's body has at most 2^29 bytes. Takes memory.
    pub fn write<D: Disk>(&mut self, alloc: Global, disk: &mut D, batch: Batch) -> Result<(), Stop>
        requires ready { IsReady self.old (D.disk disk.old) }
        requires nothing { self.old.log.pending ≡ None }
        requires short { size_next self.old (APlain (self.old.log.last + 1) batch) ≤ 2 ^ 29 }
        requires naming { Tells (D.disk disk.old) → IsNaming (system self.old (seen (D.disk disk.old))) batch }
        ensures ready { OnOk result (IsReady self.new (D.disk disk.new)) }
        ensures written { OnOk result (HasWritten (APlain (self.old.log.last + 1) batch) None (self.old.log.last + 1) self.old self.new) }
        ensures batch { OnOk result (HasBatch (self.old.log.last + 1) batch self.old.families self.new.families) }
        ensures room { OnOk result (HasRoom self.old.log (size_next self.old (APlain (self.old.log.last + 1) batch))) }
        ensures number { OnOk result (HasNoNumber self.old.log.last → ⊥) }
        ensures counts { Counts 0 0 2 (D.disk disk.old) (D.disk disk.new) }
        ensures err { IfErr result (IsAppendStop self.old.log (size_next self.old (APlain (self.old.log.last + 1) batch)) (D.disk disk.old) (D.disk disk.new)) }
        ensures kept { IfErr result (λ e. (e ≡ Stop.Disk) ⊎ IsAsBefore batch self.old self.new) }
        ensures usable { IfErr result (λ e. (e ≡ Stop.Disk) ⊎ IsReady self.new (D.disk disk.new)) }
        ensures durable { Tells (D.disk disk.old) → OnOk result (IsAtRest (file_of (D.disk disk.new) self.old.log.gate.file)) }
        // A crash at any moment leaves what the files said, or that with the batch, and the other files as they were.
        ensures any_moment { Tells (D.disk disk.old) → Writes (next_record self.old (APlain (self.old.log.last + 1) batch)) self.old.log.gate.file (D.disk disk.old) (D.disk disk.new) }
    {
        place_in_first_child();
        make_ready(alloc, &mut self.families, batch.as_slice())?;
        let added = self.log.write(alloc, disk, batch)?;
        self.families
            .add(added.operations.as_slice(), added.sequence);
        Ok(())
    }

    /// Prepares a batch for commit k: it is whole on the disk, and counts once it is decided, which takes no memory then. What holds for
    /// `write` holds for it too.
    pub fn prepare<D: Disk>(
        &mut self,
        alloc: Global,
        disk: &mut D,
        k: u64,
        batch: Batch,
    ) -> Result<(), Stop>
        requires ready { IsReady self.old (D.disk disk.old) }
        requires nothing { self.old.log.pending ≡ None }
        requires short { size_next self.old (APrepare k (self.old.log.last + 1) batch) ≤ 2 ^ 29 }
        requires naming { Tells (D.disk disk.old) → IsNaming (system self.old (seen (D.disk disk.old))) batch }
        ensures ready { OnOk result (IsReady self.new (D.disk disk.new)) }
        ensures written { OnOk result (HasWritten (APrepare k (self.old.log.last + 1) batch) (Some (prepared k (self.old.log.last + 1) batch)) (self.old.log.last + 1) self.old self.new) }
        ensures families { OnOk result (IsMadeReady batch self.old.families self.new.families) }
        ensures room { OnOk result (HasRoom self.old.log (size_next self.old (APrepare k (self.old.log.last + 1) batch))) }
        ensures number { OnOk result (HasNoNumber self.old.log.last → ⊥) }
        ensures counts { Counts 0 0 2 (D.disk disk.old) (D.disk disk.new) }
        ensures err { IfErr result (IsAppendStop self.old.log (size_next self.old (APrepare k (self.old.log.last + 1) batch)) (D.disk disk.old) (D.disk disk.new)) }
        ensures kept { IfErr result (λ e. (e ≡ Stop.Disk) ⊎ IsAsBefore batch self.old self.new) }
        ensures usable { IfErr result (λ e. (e ≡ Stop.Disk) ⊎ IsReady self.new (D.disk disk.new)) }
        ensures durable { Tells (D.disk disk.old) → OnOk result (IsAtRest (file_of (D.disk disk.new) self.old.log.gate.file)) }
        // A crash at any moment leaves what the files said, or that with the prepare, and the other files as they were.
        ensures any_moment { Tells (D.disk disk.old) → Writes (next_record self.old (APrepare k (self.old.log.last + 1) batch)) self.old.log.gate.file (D.disk disk.old) (D.disk disk.new) }
    {
        place_in_first_child();
        make_ready(alloc, &mut self.families, batch.as_slice())?;
        self.log.prepare(alloc, disk, k, batch)
    }

    /// Decides the pending batch, which is prepared for commit k: it counts. The next record says so. Takes no memory and touches no disk.
    pub fn decide(&mut self, k: u64)
        requires pending { option_map (λ p. p.commit) self.old.log.pending ≡ Some k }
        requires awaits { Awaits self.old }
        ensures manifest { self.new.manifest ≡ self.old.manifest }
        ensures log { self.new.log ≡ with_verdict 1 self.old.log }
        ensures batch { AddsPending self.old self.new }
        ensures ready { (s : State) → IsReady self.old s → (Tells s → NamesPending self.old (seen s)) → IsReady self.new s }
    {
        place_in_first_child();
        if let Some(batch) = self.log.decide() {
            self.families
                .add(batch.operations.as_slice(), batch.sequence);
        }
    }

    /// Drops the pending batch, which is prepared for commit k. The next record says so. Takes no memory and touches no disk.
    pub fn abandon(&mut self, k: u64)
        requires pending { option_map (λ p. p.commit) self.old.log.pending ≡ Some k }
        ensures manifest { self.new.manifest ≡ self.old.manifest }
        ensures log { self.new.log ≡ with_verdict 2 self.old.log }
        ensures families { self.new.families ≡ self.old.families }
        ensures ready { (s : State) → IsReady self.old s → IsReady self.new s }
    {
        self.log.abandon();
    }

    /// Brings the verdict on the last prepared batch to the log, where no record has it yet. Takes memory.
    pub fn settle<D: Disk>(&mut self, alloc: Global, disk: &mut D) -> Result<(), Stop>
        requires ready { IsReady self.old (D.disk disk.old) }
        requires nothing { self.old.log.pending ≡ None }
        ensures ready { OnOk result (IsReady self.new (D.disk disk.new)) }
        ensures settled { self.old.log.verdict ≡ 0 → (result ≡ Ok tt) × (self.new ≡ self.old) × (D.disk disk.new ≡ D.disk disk.old) }
        ensures written { (self.old.log.verdict ≡ 0 → ⊥) → OnOk result (HasWritten ADecided None self.old.log.last self.old self.new) }
        ensures verdict { OnOk result (self.new.log.verdict ≡ 0) }
        ensures families { self.new.families ≡ self.old.families }
        ensures room { (self.old.log.verdict ≡ 0 → ⊥) → OnOk result (HasRoom self.old.log (size_next self.old ADecided)) }
        ensures counts { Counts 0 0 2 (D.disk disk.old) (D.disk disk.new) }
        ensures err { IfErr result (IsRecordStop self.old.log.gate (size_next self.old ADecided) (D.disk disk.old) (D.disk disk.new)) }
        ensures kept { IfErr result (λ e. (e ≡ Stop.Disk) ⊎ (self.new ≡ self.old)) }
        ensures usable { IfErr result (λ e. (e ≡ Stop.Disk) ⊎ IsReady self.new (D.disk disk.new)) }
        ensures durable { Tells (D.disk disk.old) → (self.old.log.verdict ≡ 0 → ⊥) → OnOk result (IsAtRest (file_of (D.disk disk.new) self.old.log.gate.file)) }
        // A crash at any moment leaves what the files said, or that with the verdict, and the other files as they were.
        ensures any_moment { Tells (D.disk disk.old) → Writes (next_record self.old ADecided) self.old.log.gate.file (D.disk disk.old) (D.disk disk.new) }
    {
        place_in_first_child();
        self.log.settle(alloc, disk)
    }

    /// The newest version of a key of a family that isn't past a number, deletions included, None where there is none. It looks into at
    /// most the newest runs and one run of each of the four levels behind them, and what it read is held for the next look-up. In a family
    /// that no batch named and that has no run there is none, and nothing is read. Takes memory.
    pub fn get<D: Disk>(
        &mut self,
        alloc: Global,
        disk: &mut D,
        family: u32,
        key: &[u8],
        at: u64,
    ) -> Result<Option<Found>, Stop>
        requires ready { IsReady self.old (D.disk disk.old) }
        ensures ready { IsReady self.new (D.disk disk.new) }
        ensures manifest { self.new.manifest ≡ self.old.manifest }
        ensures log { self.new.log ≡ self.old.log }
        ensures only { OnlyAt family self.old.families self.new.families }
        ensures found { Tells (D.disk disk.old) → IsWhole (family_at self.old.families family) (seen (D.disk disk.old)) → IfOk result (λ o. option_map version_held o ≡ newest at key.now (versions_in self.old (seen (D.disk disk.old)) family)) }
        ensures memtable { (family_at self.new.families family).memtable ≡ (family_at self.old.families family).memtable }
        ensures levels { (family_at self.new.families family).levels ≡ (family_at self.old.families family).levels }
        ensures counts { Counts (reads_of key.now (family_at self.old.families family)) (bytes_of key.now (family_at self.old.families family)) 0 (D.disk disk.old) (D.disk disk.new) }
        ensures few { reads_of key.now (family_at self.old.families family) ≤ length (family_at self.old.families family).levels.newest + 4 }
        ensures warm { AreSorted (looked key.now (family_at self.old.families family).levels) → IsWarmFor key.now (family_at self.old.families family) → Counts 0 0 0 (D.disk disk.old) (D.disk disk.new) }
        ensures same { Tells (D.disk disk.old) → Same (D.disk disk.old) (D.disk disk.new) }
        ensures brings { OnOk result (Brings key.now (looked key.now (family_at self.old.families family).levels) (family_at self.old.families family).cached (family_at self.new.families family).cached) }
        ensures stops { IfErr result (MayStop (HasKeyOffence key.now (looked key.now (family_at self.old.families family).levels)) (D.disk disk.old) (D.disk disk.new)) }
    {
        runs_lie_without_gaps();
        self.families.get(alloc, disk, family, key, at)
    }

    /// A cursor over the versions of a family that stand at a number, at the end until its first seek. It reads past the blocks that are
    /// held. Takes memory.
    pub fn cursor<'a>(
        &'a self,
        alloc: Global,
        family: u32,
        at: u64,
    ) -> Result<FamilyCursor<'a>, Memory>
        ensures state { IfOk result (λ c. ⟦<FamilyCursor<'a> as Listed>⟧.cursor c ≡ cursor_at at (family_at self.now.families family)) }
        ensures view { IfOk result (λ c. IsViewAt at (family_at self.now.families family) (⟦<FamilyCursor<'a> as Listed>⟧.cursor c)) }
        ensures whole { (image : Image) → IsWhole (family_at self.now.families family) image → IfOk result (λ c. ⟦<FamilyCursor<'a> as Listed>⟧.whole c image) }
        ensures offends { (image : Image) (file place : ℕ) → IfOk result (λ c. ⟦<FamilyCursor<'a> as Listed>⟧.offends c image file place → HasOffence (family_at self.now.families family).levels image file place) }
    {
        self.families.cursor(alloc, family, at)
    }
}
