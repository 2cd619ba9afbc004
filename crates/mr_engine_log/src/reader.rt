//! Reading an engine log.
ghost use Rattle.std.specs.Prelude.{◌≡◌, ◌≤◌, ◌<◌, ◌+◌, ◌*◌, ◌^◌, ◌⊎◌, ℕ, List, [], length, true, false, IfOk, IfErr, IfSome, OnOk, Ok, Err, None};
ghost use Rattle.mr_base.specs.Disk.{Tells, file_of, HasRisen};
ghost use Rattle.mr_base.specs.Calls.{Same, Counts, Rises};
ghost use Rattle.mr_gate.specs.Log.{end_from, is_damaged_from};
ghost use Rattle.mr_gate.specs.Gate.{IsDamage};
ghost use Rattle.mr_gate.specs.Walking.{Walks, IsPaid, paid};
ghost use Rattle.mr_engine_log.specs.Reading.{IsReading, IsTurn, IsReadStop};
ghost use Rattle.mr_engine_log.specs.declared.batched.Batched.{Batched};

use crate::batched::{Counted, Prepared};
use crate::turn::{SoFar, take_record};
use mr_base::{Disk, Stop};
use mr_gate::LogWalk;
use std::alloc::Global;
use std::marker::Model;

/// An engine log that is being read, one record after the other. Nothing is written.
#[derive(Drop)]
pub struct LogReader {
    pub(crate) file: u64,
    pub(crate) base: u64,
    pub(crate) walk: LogWalk,
    pub(crate) so_far: SoFar,
}

/// What records leave beside the batches that count: the prepare that has no verdict, the last sequence number used, whether each was one
/// above the one before it, and the place behind the records.
#[derive(Drop)]
pub struct Left {
    pub pending: Option<Prepared>,
    pub last: u64,
    pub in_turn: bool,
    pub end: u64,
}

impl Model for LogReader {
    ghost use Rattle.std.specs.Prelude.{◌≡◌, ◌≤◌};
    ghost use Rattle.mr_engine_log.specs.Reading.{ReaderState};

    ghost Value = { ReaderState };

    ghost view = { λ r. record { walk = r.walk; base = r.base; pending = r.so_far.pending; last = r.so_far.last; in_turn = r.so_far.in_turn } };

    ghost invariant = { λ r. r.walk.file ≡ r.file };
}

/// Goes on to the end of the records, and tells damage of the log on the way.
fn walk_on<D: Disk>(alloc: Global, disk: &mut D, walk: &mut LogWalk) -> Result<(), Stop>
    requires walks { Tells (D.disk disk.old) → Walks walk.old (file_of (D.disk disk.old) walk.old.file).bytes }
    ensures rises { Rises 0 (D.disk disk.old) (D.disk disk.new) }
    ensures same { Tells (D.disk disk.old) → Same (D.disk disk.old) (D.disk disk.new) }
    ensures failed { result ≡ Err Stop.Disk → HasRisen (D.disk disk.old).faults (D.disk disk.new).faults }
    ensures answers { IfErr result (λ e. (e ≡ Stop.Disk) ⊎ ((e ≡ Stop.Memory) ⊎ ((at : ℕ) × (e ≡ Stop.Damaged walk.old.file at)))) }
    ensures paid { IsPaid (paid walk.old) (paid walk.new + 4) (D.disk disk.old) (D.disk disk.new) }
    ensures near { walk.old.window.start ≤ walk.old.place → walk.new.window.start ≤ walk.new.place }
    ensures file { (walk.new.file ≡ walk.old.file) × (walk.new.length ≡ walk.old.length) }
    ensures within { Tells (D.disk disk.old) → walk.new.place ≤ end_from walk.old.place (file_of (D.disk disk.old) walk.old.file).bytes }
    ensures sound { Tells (D.disk disk.old) → OnOk result (is_damaged_from walk.old.place (file_of (D.disk disk.old) walk.old.file).bytes ≡ false) }
    ensures damaged { Tells (D.disk disk.old) → IfErr result (λ e. (e ≡ Stop.Disk) ⊎ ((e ≡ Stop.Memory)
        ⊎ IsDamage walk.old.file walk.old.place (file_of (D.disk disk.old) walk.old.file).bytes e)) }
{
    'rest: while let Some((_at, _body)) = walk.next_record(alloc, disk)? {}
    Ok(())
}

impl LogReader {
    /// Begins to read the log in a file, before whose first record this was the last sequence number. Takes memory for a window.
    pub fn begin<D: Disk>(
        alloc: Global,
        disk: &mut D,
        file: u64,
        base: u64,
    ) -> Result<LogReader, Stop>
        ensures counts { Counts 1 65532 0 (D.disk disk.old) (D.disk disk.new) }
        ensures failed { result ≡ Err Stop.Disk → HasRisen (D.disk disk.old).faults (D.disk disk.new).faults }
        ensures answers { IfErr result (λ e. (e ≡ Stop.Disk) ⊎ (e ≡ Stop.Memory)) }
        ensures same { Tells (D.disk disk.old) → Same (D.disk disk.old) (D.disk disk.new) }
        ensures begun { IfOk result (λ r. (r.walk.file ≡ file) × (r.base ≡ base) × (r.walk.place ≡ 0) × (r.walk.window.start ≡ 0)) }
        ensures none_yet { IfOk result (λ r. (r.pending ≡ None) × (r.last ≡ base) × (r.in_turn ≡ true)) }
        ensures walks { Tells (D.disk disk.old) → IfOk result (λ r. Walks r.walk (file_of (D.disk disk.old) file).bytes) }
        ensures reading { Tells (D.disk disk.old) → IfOk result (λ r. IsReading r [] (file_of (D.disk disk.old) file).bytes) }
    {
        let walk = LogWalk::begin(alloc, disk, file, 0)?;
        Ok(LogReader {
            file,
            base,
            walk,
            so_far: SoFar {
                pending: None,
                last: base,
                in_turn: true,
            },
        })
    }

    /// What the records so far leave beside the batches that count.
    pub fn finish(self) -> Left
        ensures pending { result.pending ≡ self.pending }
        ensures last { result.last ≡ self.last }
        ensures in_turn { result.in_turn ≡ self.in_turn }
        ensures end { result.end ≡ self.walk.place }
    {
        let end = self.walk.place();
        Left {
            pending: self.so_far.pending,
            last: self.so_far.last,
            in_turn: self.so_far.in_turn,
            end,
        }
    }

    /// What the next record makes count, None at the end of the records. Whether the sequence numbers are in turn isn't judged here. The first offence is told: damage of the log itself, wherever
    /// it is, before that of a body. Takes memory. After an `Err` the log is to be read again.
    pub fn next<D: Disk>(&mut self, alloc: Global, disk: &mut D) -> Result<Option<Counted>, Stop>
        requires walks { Tells (D.disk disk.old) → Walks self.old.walk (file_of (D.disk disk.old) self.old.walk.file).bytes }
        ensures rises { Rises 0 (D.disk disk.old) (D.disk disk.new) }
        ensures same { Tells (D.disk disk.old) → Same (D.disk disk.old) (D.disk disk.new) }
        ensures base { (self.new.base ≡ self.old.base) × (self.new.walk.file ≡ self.old.walk.file) }
        // What all its steps cost is told by the places that the walk and its window reach.
        ensures paid { IsPaid (paid self.old.walk) (paid self.new.walk + 4) (D.disk disk.old) (D.disk disk.new) }
        ensures record_paid { IfOk result (λ o. IfSome o (λ c. IsPaid (paid self.old.walk) (paid self.new.walk) (D.disk disk.old) (D.disk disk.new))) }
        ensures near { self.old.walk.window.start ≤ self.old.walk.place → self.new.walk.window.start ≤ self.new.walk.place }
        ensures within { Tells (D.disk disk.old) → self.new.walk.place ≤ end_from self.old.walk.place (file_of (D.disk disk.old) self.old.walk.file).bytes }
        ensures ahead { IfOk result (λ o. IfSome o (λ c. (self.old.walk.place < self.new.walk.place) × (self.new.walk.place < self.old.walk.length))) }
        ensures length { self.new.walk.length ≡ self.old.walk.length }
        ensures walks { Tells (D.disk disk.old) → OnOk result (Walks self.new.walk (file_of (D.disk disk.old) self.old.walk.file).bytes) }
        ensures turn { (batches : List Batched) → Tells (D.disk disk.old) → IsReading self.old batches (file_of (D.disk disk.old) self.old.walk.file).bytes
            → IfOk result (IsTurn self.old self.new batches (file_of (D.disk disk.old) self.old.walk.file).bytes) }
        ensures err { IfErr result (IsReadStop self.old (D.disk disk.old) (D.disk disk.new)) }
    {
        let file = self.file;
        match self.walk.next_record(alloc, disk)? {
            None => Ok(None),
            Some((at, body)) => {
                match take_record(alloc, file, &mut self.so_far, at, body.as_slice()) {
                    Ok(counted) => Ok(Some(counted)),
                    Err(Stop::Damaged { file, at }) => {
                        walk_on(alloc, disk, &mut self.walk)?;
                        Err(Stop::Damaged { file, at })
                    }
                    Err(stop) => Err(stop),
                }
            }
        }
    }
}
