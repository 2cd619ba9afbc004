//! A whole script.

ghost use Rattle.std.specs.Prelude.{◌≡◌, ◌≤◌, ℕ, [], IsTrue, OnOk, IfErr};
ghost use Rattle.mr_commit_log.specs.Appending.{early};
ghost use Rattle.mr_commit_log.specs.Causes.{GoesOn};
ghost use Rattle.mr_serve.specs.Serving.{IsServing};
ghost use Rattle.mr_run.specs.Causes.{IsScriptCause};
ghost use Rattle.mr_run.specs.Clocks.{clock_of, Goes};
ghost use Rattle.mr_run.specs.Holding.{Holds};
ghost use Rattle.mr_run.specs.Reading.{ServesScript, IsTaken};

use crate::shell::Shell;
use mr_base::{Clock, Host, Source};
use mr_commit_log::Ending;
use std::alloc::Global;

/// The greatest length of a script in bytes.
pub(crate) const LONGEST: u64 = 1 << 30;

/// How many bytes are asked of the source at once.
const PIECE: usize = 4096;

impl Shell {
    /// Serves the script that the source has, in pieces, and counts the bytes that were taken.
    pub(crate) fn serve_all<S: Source, H: Host, C: Clock>(
        &mut self,
        alloc: Global,
        source: &mut S,
        host: &mut H,
        clock: &mut C,
        taken: &mut u64,
    ) -> Result<(), Ending>
        requires serving { IsServing self.old.server (H.disk host.old) }
        requires fresh { Holds self.old.part [] }
        requires none { taken.old ≡ 0 }
        ensures serves { ServesScript (S.source source.old) taken.new self.old.server self.new.server (clock_of self.old.given (C.clock clock.old)) (clock_of self.old.given (C.clock clock.new)) (H.disk host.old) (H.disk host.new) (early result) }
        ensures ended { IsTrue (S.source source.old).tells → OnOk result ((S.source source.new).left ≡ []) }
        ensures taken { IsTaken (S.source source.old) (S.source source.new) taken.new }
        ensures at_most { taken.new ≤ 1073741825 }
        ensures clock { Goes self.old.given (C.clock clock.old) (C.clock clock.new) }
        ensures goes_on { GoesOn (H.disk host.old) (H.disk host.new) }
        ensures cause { IfErr result (IsScriptCause self.old.server.log.gate.limit (S.source source.old) (S.source source.new) (H.disk host.old) (H.disk host.new) taken.new) }
    {
        let mut buffer = [0u8; PIECE];
        while *taken <= LONGEST {
            let room = (LONGEST + 1 - *taken).min(PIECE as u64) as usize;
            let count = source.take(&mut buffer[..room])?;
            if count == 0 {
                return self.finish(alloc, host, clock);
            }
            *taken += count as u64;
            self.feed_all(alloc, host, clock, &buffer[..count])?;
        }
        Err(Ending::TooLong)
    }
}
