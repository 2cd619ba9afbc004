//! From a folder to the commits of its binary log: the log's tail is repaired, and each body is read.

ghost use Rattle.std.specs.Prelude.{◌≡◌, ℕ, List, true, OnOk, IfOk, IfErr};
ghost use Rattle.mr_base.specs.Disk.{Tells, file_of};
ghost use Rattle.mr_base.specs.Calls.{During, Same};
ghost use Rattle.mr_gate.specs.Log.{is_damaged_from};
ghost use Rattle.mr_types.specs.declared.row.Commit.{Commit};
ghost use Rattle.mr_commit_log.specs.Appending.{IsReady, IsSettled};
ghost use Rattle.mr_commit_log.specs.Causes.{GoesOn};
ghost use Rattle.mr_commit_log.specs.Folder.{Holds};
ghost use Rattle.mr_commit_log.specs.Opening.{AreRead, IsKept, IsSilent, KeepsRecords, IsOpeningCause};

use mr_base::{Host, Stop};
use mr_binlog::Binlog;
use mr_types::Commit;
use sqlite_items::Items;
use std::alloc::Global;

/// The binary log of a folder, and the commits that it holds.
#[derive(Drop)]
pub struct Opened {
    pub log: Binlog,
    pub commits: Items<Commit>,
}

/// Reads the commits of a log that was opened.
fn read_all<H: Host>(alloc: Global, host: &mut H, log: &Binlog) -> Result<Items<Commit>, Stop>
    requires ready { IsReady log.now.gate (H.disk host.old) }
    ensures goes_on { GoesOn (H.disk host.old) (H.disk host.new) }
    ensures same { Tells (H.disk host.old) → Same (H.disk host.old) (H.disk host.new) }
    ensures read { IfOk result AreRead }
    ensures holds { Tells (H.disk host.old) → IfOk result (λ commits. Holds commits (file_of (H.disk host.old) 1).bytes) }
    ensures cause { IfErr result (IsOpeningCause (H.disk host.old) (H.disk host.new)) }
{
    let mut commits = Items::new(alloc);
    let mut at = 0;
    'records: while let Some((commit, next)) = log.read(alloc, host, at)? {
        commits.push(commit)?;
        at = next;
    }
    Ok(commits)
}

/// Opens the binary log, which is not to pass `limit` bytes. Damage of the log itself is found first, and then nothing is
/// changed; else its tail is repaired, and its commits are read.
pub fn open<H: Host>(alloc: Global, host: &mut H, limit: u64) -> Result<Opened, Stop>
    ensures ready { IfOk result (λ opened. IsReady opened.log.gate (H.disk host.new)) }
    ensures limit { IfOk result (λ opened. opened.log.gate.limit ≡ limit) }
    ensures read { IfOk result (λ opened. AreRead opened.commits) }
    ensures goes_on { GoesOn (H.disk host.old) (H.disk host.new) }
    ensures cause { IfErr result (IsOpeningCause (H.disk host.old) (H.disk host.new)) }
    ensures holds { Tells (H.disk host.old) → IfOk result (λ opened. Holds opened.commits (file_of (H.disk host.old) 1).bytes) }
    // Where the log itself is damaged nothing is changed, whatever the answer.
    ensures untouched { Tells (H.disk host.old) → is_damaged_from 0 (file_of (H.disk host.old) 1).bytes ≡ true → Same (H.disk host.old) (H.disk host.new) }
    // Of any folder: nothing is emitted, and where the log itself isn't damaged and nothing of it is pending, its records stay.
    ensures silent { Tells (H.disk host.old) → IsSilent (H.disk host.old) (H.disk host.new) }
    ensures records_stay { Tells (H.disk host.old) → KeepsRecords (H.disk host.old) (H.disk host.new) }

    // At each moment a crash leaves the commits.
    ensures any_moment { Tells (H.disk host.old) → (commits : List Commit) (output : List ℕ) → IsSettled (H.disk host.old) commits output → During (H.disk host.old) (H.disk host.new) (IsKept commits output) }
    ensures settled { Tells (H.disk host.old) → (commits : List Commit) (output : List ℕ) → IsSettled (H.disk host.old) commits output → OnOk result (IsSettled (H.disk host.new) commits output) }
{
    let log = Binlog::open_from(host, 0, 0, limit)?;
    let commits = read_all(alloc, host, &log)?;
    Ok(Opened { log, commits })
}
