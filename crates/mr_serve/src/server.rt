//! Statements one after the other.

ghost use Rattle.std.specs.Prelude.{◌≡◌, ◌+◌, ◌||◌, ℕ, true, false, List, [], ◌∷◌, drop, length, OnOk, IfOk, IfErr};
ghost use Rattle.mr_base.specs.Disk.{Tells, file_of};
ghost use Rattle.mr_base.specs.Calls.{During, Same};
ghost use Rattle.mr_gate.specs.Log.{is_damaged_from};
ghost use Rattle.mr_spec.specs.Lawful.{IsLawful};
ghost use Rattle.mr_spec.specs.Replay.{reopened};
ghost use Rattle.mr_spec.specs.ScriptRun.{event_at, world_after, has_error, is_refusal as refusal_of};
ghost use Rattle.mr_spec.specs.World.{World};
ghost use Rattle.mr_sound.specs.Sound.{IsSpelled};
ghost use Rattle.mr_types.specs.declared.row.Commit.{Commit};
ghost use Rattle.mr_commit_log.specs.Appending.{IsSettled, early};
ghost use Rattle.mr_commit_log.specs.Causes.{GoesOn, IsCausedBy};
ghost use Rattle.mr_commit_log.specs.Folder.{Holds};
ghost use Rattle.mr_commit_log.specs.Opening.{IsKept, IsSilent, KeepsRecords, IsOpeningCause};
ghost use Rattle.mr_serve.specs.Serving.{IsServing, Stands};
ghost use Rattle.mr_serve.specs.Settled.{Runs};

use mr_base::{Host, Stop};
use mr_binlog::Binlog;
use mr_commit_log::{Ending, Opened, append_all, emit_all};
use mr_model::{Engine, Read, step};
use mr_print::reply_text;
use mr_sound::{openings_are_sound, statements_keep_worlds_sound};
use mr_types::{Commit, Reply};
use std::alloc::Global;

/// The engine, the log of its commits, whether some reply was an error, and how many replies are out.
#[derive(Drop)]
pub struct Server {
    pub engine: Engine,
    pub log: Binlog,
    pub failed: bool,
    pub replies: u64,
}

fn is_refusal(reply: &Reply) -> bool
    ensures { result ≡ refusal_of reply.now }
{
    matches!(reply, Reply::Refused(_))
}

/// The commits behind the first ones.
fn behind(commits: &[Commit], first: usize) -> &[Commit]
    ensures { result.now ≡ drop first commits.now }
{
    if first <= commits.len() {
        &commits[first..]
    } else {
        &[]
    }
}

impl Server {
    /// Opens the folder: its binary log, which is not to pass `limit` bytes, and the engine that its commits make. Damage of the log
    /// itself is found first, and then nothing is changed; else its tail is repaired, and its commits are read.
    pub fn open<H: Host>(alloc: Global, host: &mut H, limit: u64) -> Result<Server, Stop>
        ensures serving { IfOk result (λ s. IsServing s (H.disk host.new)) }
        ensures fresh { IfOk result (λ s. (s.failed ≡ false) × (s.replies ≡ 0) × (s.log.gate.limit ≡ limit)) }
        ensures goes_on { GoesOn (H.disk host.old) (H.disk host.new) }
        ensures cause { IfErr result (IsOpeningCause (H.disk host.old) (H.disk host.new)) }
        ensures holds { Tells (H.disk host.old) → IfOk result (λ s. Holds s.engine.commits (file_of (H.disk host.old) 1).bytes) }
        // Where the log itself is damaged nothing is changed, whatever the answer.
        ensures untouched { Tells (H.disk host.old) → is_damaged_from 0 (file_of (H.disk host.old) 1).bytes ≡ true → Same (H.disk host.old) (H.disk host.new) }
        // Of any folder: nothing is emitted, and where the log itself isn't damaged and nothing of it is pending, its records stay.
        ensures silent { Tells (H.disk host.old) → IsSilent (H.disk host.old) (H.disk host.new) }
        ensures records_stay { Tells (H.disk host.old) → KeepsRecords (H.disk host.old) (H.disk host.new) }

        // The server stands for the world that lawful commits make, and at each moment a crash leaves them.
        ensures stands { Tells (H.disk host.old) → (commits : List Commit) → Holds commits (file_of (H.disk host.old) 1).bytes → IsLawful commits → IfOk result (λ s. Stands s (reopened commits)) }
        ensures any_moment { Tells (H.disk host.old) → (commits : List Commit) (output : List ℕ) → IsSettled (H.disk host.old) commits output → During (H.disk host.old) (H.disk host.new) (IsKept commits output) }
        ensures settled { Tells (H.disk host.old) → (commits : List Commit) (output : List ℕ) → IsSettled (H.disk host.old) commits output → OnOk result (IsSettled (H.disk host.new) commits output) }
    {
        openings_are_sound();
        let Opened { log, commits } = mr_commit_log::open(alloc, host, limit)?;
        let engine = Engine::reopened(alloc, commits)?;
        Ok(Server {
            engine,
            log,
            failed: false,
            replies: 0,
        })
    }

    /// Executes one statement, or refuses a text that is none: makes its changes, appends its commits to the log one after the other,
    /// and then emits its reply. After an `Err` the server serves no more.
    pub fn serve<H: Host>(
        &mut self,
        alloc: Global,
        host: &mut H,
        statement: &Read,
        clock: u64,
    ) -> Result<(), Ending>
        requires serving { IsServing self.old (H.disk host.old) }
        ensures serving { OnOk result (IsServing self.new (H.disk host.new)) }
        ensures limit { self.new.log.gate.limit ≡ self.old.log.gate.limit }
        ensures runs { (w : World) → Stands self.old w → IsSpelled statement.now → Runs self.old.log.gate.limit (H.disk host.old) (H.disk host.new) self.old.replies self.new.replies (event_at w statement.now clock ∷ []) (early result) w.commits }
        ensures stands { OnOk result ((w : World) → Stands self.old w → IsSpelled statement.now → Stands self.new (world_after w statement.now clock)) }
        ensures failed { OnOk result ((w : World) → Stands self.old w → self.new.failed ≡ (self.old.failed || has_error (event_at w statement.now clock ∷ []))) }
        ensures goes_on { GoesOn (H.disk host.old) (H.disk host.new) }
        ensures cause { IfErr result (IsCausedBy self.old.log.gate.limit (H.disk host.old) (H.disk host.new)) }
    {
        statements_keep_worlds_sound();
        let before = self.engine.commits.len();
        let reply = step(alloc, &mut self.engine, statement, clock)?;
        let text = reply_text(alloc, &reply)?;
        self.failed |= is_refusal(&reply);
        let engine = &self.engine;
        let added = behind(engine.commits.as_slice(), before);
        append_all(alloc, &mut self.log, host, added)?;
        emit_all(host, text.as_slice())?;
        self.replies = self.replies.saturating_add(1);
        Ok(())
    }
}
