//! The rule on file numbers.
ghost use Rattle.std.specs.Prelude.{◌≡◌, ◌&&◌, not, ◌==◌};
ghost use Rattle.mr_manifest.specs.Rule.{is_among as among, is_live as live_is, is_given as given, runs_fit as runs_do, is_free as free, drop_fits as drop_does, drops_fit as drops_do, log_fits as log_does, numbers_fit as numbers_do};

use crate::edit::Edit;
use crate::live::{Live, LiveRun};

/// The files up to this number are the logs that have a number of their own, and files that aren't used.
const LAST_RESERVED: u64 = 15;

/// Whether a run of these is in this file.
fn is_among(runs: &[LiveRun], file: u64) -> bool
    ensures { result ≡ among file runs.now }
{
    'looking: for run in runs {
        if run.file == file {
            return true;
        }
    }
    false
}

/// Whether the live engine log or a live run is in this file.
fn is_live(live: &Live, file: u64) -> bool
    ensures { result ≡ live_is file live.now }
{
    live.log == file || is_among(live.runs.as_slice(), file)
}

/// Whether a file has a number that has been given.
fn is_given(live: &Live, file: u64) -> bool
    ensures { result ≡ given live.now file }
{
    LAST_RESERVED < file && file < live.next_file
}

/// Whether a run's number is given, and neither the live log's nor that of one of these.
fn run_fits(live: &Live, file: u64, others: &[LiveRun]) -> bool
    ensures { result ≡ (given live.now file && (not (file == live.now.log) && not (among file others.now))) }
{
    is_given(live, file) && file != live.log && !is_among(others, file)
}

/// Whether each of these runs has a number of its own.
fn runs_fit(live: &Live, runs: &[LiveRun]) -> bool
    ensures { result ≡ runs_do live.now runs.now }
{
    'judging: for i in 0..runs.len() {
        if !run_fits(live, runs[i].file, &runs[i + 1..]) {
            return false;
        }
    }
    true
}

/// Whether a file that is no longer used has a number for it.
fn is_free(live: &Live, file: u64) -> bool
    ensures { result ≡ free live.now file }
{
    LAST_RESERVED < file && !is_live(live, file)
}

fn drop_fits(live: &Live, edit: &Edit) -> bool
    ensures { result ≡ drop_does live.now edit.now }
{
    match *edit {
        Edit::RunDropped(file) => is_free(live, file),
        _ => true,
    }
}

fn drops_fit(live: &Live, edits: &[Edit]) -> bool
    ensures { result ≡ drops_do live.now edits.now }
{
    'dropping: for edit in edits {
        if !drop_fits(live, edit) {
            return false;
        }
    }
    true
}

fn log_fits(live: &Live, before: Option<u64>) -> bool
    ensures { result ≡ log_does live.now before }
{
    match before {
        Some(log) => log == live.log || is_free(live, log),
        None => true,
    }
}

/// Whether the live files keep the rule on numbers, after a record of these edits, before which that was the live log.
pub(crate) fn numbers_fit(live: &Live, before: Option<u64>, last: &[Edit]) -> bool
    ensures { result ≡ numbers_do live.now before last.now }
{
    is_given(live, live.log)
        && runs_fit(live, live.runs.as_slice())
        && drops_fit(live, last)
        && log_fits(live, before)
}
