//! Commits at the end of the binary log.

ghost use Rattle.std.specs.Prelude.{◌≡◌, ◌≤◌, ◌^◌, ◌++◌, List, [], ◌∷◌, length, OnOk, IfOk, IfErr, Some, true, nat_le};
ghost use Rattle.std.specs.List.{list_all};
ghost use Rattle.mr_fields.specs.Fields.{is_byte};
ghost use Rattle.mr_binlog.specs.CommitForm.{commit_bytes};
ghost use Rattle.mr_spec.specs.Lawful.{IsLawful};
ghost use Rattle.mr_types.specs.declared.row.Commit.{Commit};
ghost use Rattle.mr_commit_log.specs.Appending.{Appends, IsReady, early};
ghost use Rattle.mr_commit_log.specs.Causes.{GoesOn, IsCausedBy};
ghost use Rattle.mr_commit_log.specs.LogCommits.{read_commit};

use crate::ending::Ending;
use mr_base::{Blob, Host, Memory};
use mr_binlog::{Binlog, write_commit};
use mr_forms::lawful_commits_have_a_form;
use mr_types::Commit;
use std::alloc::Global;

/// The greatest length of a record's body in bytes.
const LONGEST_BODY: usize = 1 << 29;

/// Whether a record can hold them. It can hold the bytes of each lawful commit.
fn is_short(body: &[u8]) -> bool
    ensures short { result ≡ nat_le (length body.now) (2 ^ 29) }
    ensures bytes { list_all is_byte body.now ≡ true }
{
    body.len() <= LONGEST_BODY
}

/// The bytes of a commit. What has no form as bytes may be answered as want of memory.
fn body_of(alloc: Global, commit: &Commit) -> Result<Blob, Memory>
    ensures bytes { IfOk result (λ body. body ≡ commit_bytes commit.now) }
    ensures short { IfOk result (λ body. length body ≤ 2 ^ 29) }
    ensures read { (before : List Commit) → IsLawful (before ++ commit.now ∷ []) → IfOk result (λ body. read_commit body ≡ Some commit.now) }
{
    lawful_commits_have_a_form();
    let body = write_commit(alloc, commit)?;
    if is_short(body.as_slice()) {
        Ok(body)
    } else {
        Err(Memory)
    }
}

/// Adds a commit at the log's end. After an `Err` the log is closed, or nothing was written.
fn append_commit<H: Host>(
    alloc: Global,
    log: &mut Binlog,
    host: &mut H,
    commit: &Commit,
) -> Result<(), Ending>
    requires ready { IsReady log.old.gate (H.disk host.old) }
    ensures ready { OnOk result (IsReady log.new.gate (H.disk host.new)) }
    ensures limit { log.new.gate.limit ≡ log.old.gate.limit }
    ensures appends { (before : List Commit) → IsLawful (before ++ commit.now ∷ []) → Appends log.old.gate.limit (H.disk host.old) (H.disk host.new) (commit.now ∷ []) (early result) before }
    ensures goes_on { GoesOn (H.disk host.old) (H.disk host.new) }
    ensures cause { IfErr result (IsCausedBy log.old.gate.limit (H.disk host.old) (H.disk host.new)) }
{
    let body = body_of(alloc, commit)?;
    log.append(host, body.as_slice())?;
    Ok(())
}

/// Adds these commits one after the other, each of them synced, where they are lawful behind those that are there. After an
/// `Err` the first ones may be there, and the log is closed or stands behind them.
pub fn append_all<H: Host>(
    alloc: Global,
    log: &mut Binlog,
    host: &mut H,
    commits: &[Commit],
) -> Result<(), Ending>
    requires ready { IsReady log.old.gate (H.disk host.old) }
    ensures ready { OnOk result (IsReady log.new.gate (H.disk host.new)) }
    ensures limit { log.new.gate.limit ≡ log.old.gate.limit }
    ensures appends { (before : List Commit) → IsLawful (before ++ commits.now) → Appends log.old.gate.limit (H.disk host.old) (H.disk host.new) commits.now (early result) before }
    ensures goes_on { GoesOn (H.disk host.old) (H.disk host.new) }
    ensures cause { IfErr result (IsCausedBy log.old.gate.limit (H.disk host.old) (H.disk host.new)) }
{
    'appending: for commit in commits {
        append_commit(alloc, log, host, commit)?;
    }
    Ok(())
}
