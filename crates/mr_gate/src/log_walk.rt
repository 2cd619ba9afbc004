//! A walk over the records of a log.
ghost use Rattle.std.specs.Prelude.{◌≡◌, ◌≤◌, ◌<◌, ◌+◌, ◌^◌, length, IfOk, OnOk, OnErr, IfErr, IfSome, Some, None, ◌⊎◌};
ghost use Rattle.mr_base.specs.Disk.{Tells, file_of, HasRisen};
ghost use Rattle.mr_base.specs.Calls.{Same, Counts};
ghost use Rattle.mr_gate.specs.Log.{end_from};
ghost use Rattle.mr_gate.specs.Gate.{IsDamage};
ghost use Rattle.mr_gate.specs.Walking.{Walks, IsStep, IsPaid, paid};

use crate::frame::{HEAD, MAX_BODY, OPEN};
use crate::window::Window;
use mr_base::{Blob, Disk, Stop};
use std::alloc::Global;
use std::marker::Model;

/// A walk over the records of a log's file, from a place on, which writes nothing. It keeps a window of the file from
/// record to record: over the whole walk it asks for at most twice the records' bytes and 65,536, with at least 65,528
/// bytes in each read.
#[derive(Drop)]
pub struct LogWalk {
    file: u64,
    length: u64,
    place: u64,
    window: Window,
}

impl Model for LogWalk {
    ghost use Rattle.std.specs.Prelude.{◌≤◌};
    ghost use Rattle.mr_gate.specs.Walking.{Walk};

    ghost Value = { Walk };

    ghost view = { λ w. record { file = w.file; length = w.length; place = w.place; window = w.window } };

    ghost invariant = { λ w. w.window.start ≤ w.place };
}

impl LogWalk {
    /// A walk that begins at a place. Takes memory for its window.
    pub fn begin<D: Disk>(
        alloc: Global,
        disk: &mut D,
        file: u64,
        from: u64,
    ) -> Result<LogWalk, Stop>
        ensures counts { Counts 1 65532 0 (D.disk disk.old) (D.disk disk.new) }
        ensures failed { result ≡ Err Stop.Disk → HasRisen (D.disk disk.old).faults (D.disk disk.new).faults }
        ensures answers { IfErr result (λ e. (e ≡ Stop.Disk) ⊎ (e ≡ Stop.Memory)) }
        ensures same { Tells (D.disk disk.old) → Same (D.disk disk.old) (D.disk disk.new) }
        ensures begun { IfOk result (λ w. (w.file ≡ file) × (w.place ≡ from) × (w.window.start ≡ from)) }
        ensures walks { Tells (D.disk disk.old) → IfOk result (λ w. Walks w (file_of (D.disk disk.old) file).bytes) }
    {
        let length = disk.length(file)?;
        let window = Window::load(alloc, disk, file, from)?;
        Ok(LogWalk {
            file,
            length,
            place: from,
            window,
        })
    }

    /// The next record: its place and its body. None comes exactly at the end of the records, where there is no damage.
    /// Takes memory for the body. After an `Err` the walk is to be begun again.
    pub fn next_record<D: Disk>(
        &mut self,
        alloc: Global,
        disk: &mut D,
    ) -> Result<Option<(u64, Blob)>, Stop>
        requires walks { Tells (D.disk disk.old) → Walks self.old (file_of (D.disk disk.old) self.old.file).bytes }
        ensures counts { Counts 2 (65532 + 2 ^ 29) 0 (D.disk disk.old) (D.disk disk.new) }
        ensures failed { result ≡ Err Stop.Disk → HasRisen (D.disk disk.old).faults (D.disk disk.new).faults }
        ensures same { Tells (D.disk disk.old) → Same (D.disk disk.old) (D.disk disk.new) }
        ensures answers { IfErr result (λ e. (e ≡ Stop.Disk) ⊎ ((e ≡ Stop.Memory) ⊎ (e ≡ Stop.Damaged self.old.file self.old.place))) }
        // What all its steps cost is told by the places that the walk and its window reach.
        ensures paid { IsPaid (paid self.old) (paid self.new + 4) (D.disk disk.old) (D.disk disk.new) }
        ensures record_paid { IfOk result (λ o. IfSome o (λ r. IsPaid (paid self.old) (paid self.new) (D.disk disk.old) (D.disk disk.new))) }
        ensures near { self.new.window.start ≤ self.new.place }
        ensures file { (self.new.file ≡ self.old.file) × (self.new.length ≡ self.old.length) }
        ensures ahead { IfOk result (λ o. IfSome o (λ r. (r.0 ≡ self.old.place) × (self.new.place ≡ self.old.place + (5 + length r.1)) × (self.new.place < self.old.length))) }
        ensures fits { IfOk result (λ o. IfSome o (λ r. r.0 + 5 + length r.1 < 2 ^ 64)) }
        ensures within { Tells (D.disk disk.old) → self.new.place ≤ end_from self.old.place (file_of (D.disk disk.old) self.old.file).bytes }
        ensures walks { Tells (D.disk disk.old) → OnOk result (Walks self.new (file_of (D.disk disk.old) self.old.file).bytes) }
        ensures step { Tells (D.disk disk.old) → IfOk result (IsStep self.old self.new (file_of (D.disk disk.old) self.old.file).bytes) }
        // There is damage exactly where it says so.
        ensures damaged { Tells (D.disk disk.old) → IfErr result (λ e. (e ≡ Stop.Disk) ⊎ ((e ≡ Stop.Memory)
            ⊎ IsDamage self.old.file self.old.place (file_of (D.disk disk.old) self.old.file).bytes e)) }
    {
        let at = self.place;
        if self.length == 0 && at == 0 {
            return Ok(None);
        }
        let left = self.length.saturating_sub(at);
        if left == 0 {
            return Err(Stop::Damaged {
                file: self.file,
                at,
            });
        }
        let (gate, size) = self.window.head(disk, self.file, at)?;
        if gate != OPEN || left == 1 {
            return Ok(None);
        }
        let taken = size as u64 + HEAD;
        if size > MAX_BODY || left <= taken {
            return Err(Stop::Damaged {
                file: self.file,
                at,
            });
        }
        self.place = at + taken;
        match self.window.body(alloc, disk, self.file, at, size)? {
            Some(body) => Ok(Some((at, body))),
            None => Err(Stop::Damaged {
                file: self.file,
                at,
            }),
        }
    }

    /// The place of the next record, or of the end.
    pub fn place(&self) -> u64
        ensures { result ≡ self.now.place }
    {
        self.place
    }
}
