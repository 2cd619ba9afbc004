//! The top call.

ghost use Rattle.std.specs.Prelude.{◌≡◌, ◌≢◌, ◌⊎◌, ◌≤◌, ◌↔◌, true, [], List, None, IsTrue, OnOk, IfErr, map, string_bytes, if◌then◌else◌};
ghost use Rattle.mr_base.specs.Disk.{Tells, HasRisen, NothingPending, present, seen, file_of};
ghost use Rattle.mr_base.specs.Calls.{Same};
ghost use Rattle.mr_gate.specs.Log.{is_damaged_from};
ghost use Rattle.mr_types.specs.declared.row.Commit.{Commit};
ghost use Rattle.mr_words.specs.Form.{IsRunForm};
ghost use Rattle.mr_commit_log.specs.Causes.{GoesOn};
ghost use Rattle.mr_commit_log.specs.Folder.{StandsFor, IsReadable};
ghost use Rattle.mr_commit_log.specs.Opening.{IsSilent, KeepsRecords};
ghost use Rattle.mr_run.specs.Clocks.{clock_of, Goes};
ghost use Rattle.mr_run.specs.Ended.{RunsWhole, IsRunCause, IsServed, HasMoved, IsQuiet, reported, status};
ghost use Rattle.mr_run.specs.Headline.{Headline, IsReported};
ghost use Rattle.mr_run.specs.Reading.{IsTaken};
ghost use Rattle.mr_run.specs.Words.{now_in, limit_in};

use crate::part::Part;
use crate::shell::Shell;
use mr_base::{Clock, Host, Source, Stop};
use mr_commit_log::Ending;
use mr_serve::Server;
use mr_words::options_of;
use std::alloc::Global;

/// The length in bytes that the binary log is not to pass where the words don't say it.
const LOG_LIMIT: u64 = 1 << 40;

/// What is known of a run when it has ended.
#[derive(Clone, Copy, Debug, PartialEq, Eq)]
pub struct Report {
    /// Why it ended early, where that was memory, the disk, a damaged folder or a full log.
    pub stop: Option<Stop>,
    /// How many bytes of the script were taken.
    pub taken: u64,
    /// How many replies were wholly emitted.
    pub statements: u64,
}

/// Why a run stopped, where that was memory, the disk, a damaged folder or a full log.
fn stop_of(ending: Ending) -> Option<Stop>
    ensures { result ≡ reported ending }
{
    match ending {
        Ending::Stopped(stop) => Some(stop),
        Ending::EmitFault | Ending::SourceFault | Ending::TooLong => None,
    }
}

/// The status of a run that ended early.
fn status_of(ending: Ending) -> u8
    ensures { result ≡ status ending }
{
    match ending {
        Ending::Stopped(Stop::Memory) => 3,
        Ending::SourceFault => 4,
        Ending::Stopped(Stop::Disk) => 5,
        Ending::EmitFault => 6,
        Ending::Stopped(Stop::Damaged { .. }) => 7,
        Ending::TooLong => 8,
        Ending::Stopped(Stop::Full { .. }) => 9,
    }
}

/// The status of a run that came to its end: 1 where some reply was an error.
fn end_status(failed: bool) -> u8
    ensures { result ≡ (if failed then 1 else 0) }
{
    if failed { 1 } else { 0 }
}

/// Opens the folder and serves the script, each statement at the given value where there is one. Whether some reply was an error is
/// answered.
fn run_all<S: Source, H: Host, C: Clock>(
    alloc: Global,
    given: Option<u64>,
    limit: u64,
    source: &mut S,
    host: &mut H,
    clock: &mut C,
    report: &mut Report,
) -> Result<bool, Ending>
    requires fresh { (report.old.taken ≡ 0) × (report.old.statements ≡ 0) }
    ensures runs { Tells (H.disk host.old) → (commits : List Commit) → StandsFor (seen (H.disk host.old)) commits → NothingPending (present (H.disk host.old))
        → RunsWhole limit (S.source source.old) report.new.taken (clock_of given (C.clock clock.old)) (H.disk host.old) (H.disk host.new) report.new.statements result commits }
    ensures ended { IsTrue (S.source source.old).tells → OnOk result ((S.source source.new).left ≡ []) }
    ensures moved { OnOk result (HasMoved (S.source source.old) (clock_of given (C.clock clock.old)) (clock_of given (C.clock clock.new))) }
    ensures clock { Goes given (C.clock clock.old) (C.clock clock.new) }
    ensures taken { IsTaken (S.source source.old) (S.source source.new) report.new.taken }
    ensures at_most { report.new.taken ≤ 1073741825 }
    ensures stop { report.new.stop ≡ report.old.stop }
    ensures cause { IfErr result (IsRunCause limit (S.source source.old) (S.source source.new) (H.disk host.old) (H.disk host.new) report.new.taken) }
    ensures goes_on { GoesOn (H.disk host.old) (H.disk host.new) }
    ensures damage_kept { Tells (H.disk host.old) → is_damaged_from 0 (file_of (H.disk host.old) 1).bytes ≡ true → Same (H.disk host.old) (H.disk host.new) }
    ensures quiet { IfErr result (λ e. IsQuiet e report.new.taken report.new.statements) }
    ensures readable { Tells (H.disk host.old) → IsServed result (IsReadable (seen (H.disk host.old))) }
    ensures silent { Tells (H.disk host.old) → (IsReadable (seen (H.disk host.old)) → ⊥) → IsSilent (H.disk host.old) (H.disk host.new) }
    ensures unserved { Tells (H.disk host.old) → (IsReadable (seen (H.disk host.old)) → ⊥) → (report.new.taken ≡ 0) × (report.new.statements ≡ 0) }
    ensures records_stay { Tells (H.disk host.old) → (IsReadable (seen (H.disk host.old)) → ⊥) → KeepsRecords (H.disk host.old) (H.disk host.new) }
{
    let mut shell = Shell {
        server: Server::open(alloc, host, limit)?,
        given,
        part: Part::new(alloc),
    };
    let answer = shell.serve_all(alloc, source, host, clock, &mut report.taken);
    report.statements = shell.server.replies;
    answer?;
    Ok(shell.server.failed)
}

/// Runs a script: reads it from the source, serves its statements from the folder that is the host's disk, and emits one reply for
/// each. `words` are those behind the program's name: with `--now` each statement is served at that moment, and with `--log-limit` the
/// binary log is not to pass that many bytes.
///
/// The status is 0 where all replies are out and none was an error, 1 where some was one, 2 where the words are out of form, 3 for want of
/// memory, 4 for a fault of the source, 5 for one of the disk, 6 for one of the output, 7 for a damaged folder, 8 for a script of more than
/// 2^30 bytes, and 9 where a log is full.
pub fn run<S: Source, H: Host, C: Clock>(
    alloc: Global,
    words: &[String],
    source: &mut S,
    host: &mut H,
    clock: &mut C,
    report: &mut Report,
) -> u8
    ensures headline { IsRunForm (map string_bytes words.now) → Tells (H.disk host.old) → (commits : List Commit) → StandsFor (seen (H.disk host.old)) commits → NothingPending (present (H.disk host.old))
        → Headline (limit_in (map string_bytes words.now)) (S.source source.old) (S.source source.new) (clock_of (now_in (map string_bytes words.now)) (C.clock clock.old)) (H.disk host.old) (H.disk host.new) result report.new commits }

    // Whether the host tells stays, no count falls, and at each moment each file but the binary log is as it was.
    ensures goes_on { GoesOn (H.disk host.old) (H.disk host.new) }
    ensures bound { result ≤ 9 }
    ensures usage { (result ≡ 2) ↔ (IsRunForm (map string_bytes words.now) → ⊥) }
    ensures untouched { result ≡ 2 → (host.new ≡ host.old) × (source.new ≡ source.old) × (clock.new ≡ clock.old) }
    ensures source_fault { result ≡ 4 → HasRisen (S.source source.old).faults (S.source source.new).faults }
    ensures disk_fault { result ≡ 5 → HasRisen (H.disk host.old).faults (H.disk host.new).faults }
    ensures emit_fault { result ≡ 6 → HasRisen (H.disk host.old).emit_faults (H.disk host.new).emit_faults }
    ensures damaged { result ≡ 7 → Tells (H.disk host.old) → IsReadable (seen (H.disk host.old)) → ⊥ }
    // Where the log itself is damaged nothing is changed, whatever the status.
    ensures damage_kept { Tells (H.disk host.old) → is_damaged_from 0 (file_of (H.disk host.old) 1).bytes ≡ true → Same (H.disk host.old) (H.disk host.new) }
    ensures served { result ≢ 2 → result ≢ 3 → result ≢ 5 → result ≢ 7 → Tells (H.disk host.old) → IsReadable (seen (H.disk host.old)) }
    // A folder that isn't readable, whatever the status: nothing is emitted, nothing of the script is taken, and where the log itself
    // isn't damaged and nothing of it is pending, its records stay.
    ensures silent { Tells (H.disk host.old) → (IsReadable (seen (H.disk host.old)) → ⊥) → IsSilent (H.disk host.old) (H.disk host.new) }
    ensures unserved { Tells (H.disk host.old) → (IsReadable (seen (H.disk host.old)) → ⊥) → (report.new.taken ≡ 0) × (report.new.statements ≡ 0) }
    ensures records_stay { Tells (H.disk host.old) → (IsReadable (seen (H.disk host.old)) → ⊥) → KeepsRecords (H.disk host.old) (H.disk host.new) }
    // The statuses 0 and 1 come at the source's end alone.
    ensures ended { result ≤ 1 → IsTrue (S.source source.old).tells → (S.source source.new).left ≡ [] }
    // The clock has then moved by one value a statement. With `--now` none of it is taken, and whether it tells stays.
    ensures moved { result ≤ 1 → now_in (map string_bytes words.now) ≡ None → HasMoved (S.source source.old) (C.clock clock.old) (C.clock clock.new) }
    ensures clock { Goes (now_in (map string_bytes words.now)) (C.clock clock.old) (C.clock clock.new) }
    ensures too_long { result ≡ 8 → report.new.taken ≡ 1073741825 }
    ensures reported { IsReported (limit_in (map string_bytes words.now)) (H.disk host.old) (H.disk host.new) result report.new.stop }
    ensures nothing_reported { (result ≡ 2) ⊎ (result ≡ 7) → (report.new.taken ≡ 0) × (report.new.statements ≡ 0) }
    // So many bytes were taken, and whether the source tells stays.
    ensures taken { IsTaken (S.source source.old) (S.source source.new) report.new.taken }
    ensures at_most { report.new.taken ≤ 1073741825 }
{
    *report = Report {
        stop: None,
        taken: 0,
        statements: 0,
    };
    let Some(options) = options_of(words) else {
        return 2;
    };
    let limit = options.log_limit.unwrap_or(LOG_LIMIT);
    match run_all(alloc, options.now, limit, source, host, clock, report) {
        Ok(failed) => end_status(failed),
        Err(ending) => {
            report.stop = stop_of(ending);
            status_of(ending)
        }
    }
}
