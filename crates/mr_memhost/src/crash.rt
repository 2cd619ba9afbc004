//! The crash of a host in memory.
ghost use Rattle.std.specs.Prelude.{◌≡◌, ℕ, IfOk, IfErr};

use crate::choice::Choice;
use crate::counts::Counts;
use crate::host::MemHost;
use crate::journal::Journal;
use mr_base::Memory;

impl MemHost {
    ghost use Rattle.mr_base.specs.Disk.{file_of, present, seen, at_rest, Leaves, NothingPending};
    ghost use Rattle.mr_memhost.specs.Crash.{IsImage};
    ghost use Rattle.mr_memhost.specs.Host.{IsFresh, disk_state};

    /// A host with one of the images that a crash now may leave, and the output so far. It has made no call, and none is to
    /// fail. A refusal hands the host back.
    pub fn crash(self, choice: Choice) -> Result<MemHost, (MemHost, Memory)>
        ensures image { IfOk result (λ h. (f : ℕ) → IsImage choice (file_of (disk_state self) f) (seen (disk_state h) f)) }
        ensures allowed { IfOk result (λ h. Leaves (present (disk_state self)) (seen (disk_state h))) }
        ensures files { IfOk result (λ h. (f : ℕ) → file_of (disk_state h) f ≡ at_rest (seen (disk_state h) f)) }
        ensures rest { IfOk result (λ h. NothingPending (present (disk_state h))) }
        ensures output { IfOk result (λ h. (present (disk_state h)).output ≡ (present (disk_state self)).output) }
        ensures fresh { IfOk result IsFresh }
        ensures refused { IfErr result (λ e. e.0 ≡ self) }
    {
        let Ok(image) = self.journal.image(choice) else {
            return Err((self, Memory));
        };
        let Ok(before) = self.journal.output.clone() else {
            return Err((self, Memory));
        };
        let alloc = self.journal.alloc;
        Ok(MemHost {
            journal: Journal::begin(alloc, image, before, self.journal.output),
            counts: Counts::zero(),
            failing: Vec::new(alloc),
            stop: None,
        })
    }
}
