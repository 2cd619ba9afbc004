//! Runs of a case's script and question.

use crate::cases::Case;
use mr_base::{Memory, Stop};
use mr_memhost::{Choice, ListClock, MemHost, MemSource};
use mr_run::{Report, run};
use std::alloc::{AllocError, Global};

/// How a run ended.
#[derive(Clone, Copy)]
pub(crate) struct Ended {
    pub(crate) status: u8,
    pub(crate) report: Report,
}

/// The words of a run at moment 12.
fn words(alloc: Global) -> Result<Vec<String>, AllocError> {
    let mut words = Vec::new(alloc);
    for word in "run f --now=12".split(' ') {
        words.push(String::from_str(alloc, word)?)?;
    }
    Ok(words)
}

/// Serves a script.
pub(crate) fn serve(alloc: Global, script: &[u8], host: &mut MemHost) -> Result<Ended, Memory> {
    let words = words(alloc)?;
    let mut clock = ListClock::new(alloc, &[])?;
    let mut source = MemSource::new(alloc, script, 4096, None)?;
    let mut report = Report {
        stop: None,
        taken: 0,
        statements: 0,
    };
    let status = run(alloc, &words, &mut source, host, &mut clock, &mut report);
    Ok(Ended { status, report })
}

/// The folder after a crash.
pub(crate) fn crash(host: MemHost, choice: Choice) -> Result<MemHost, Memory> {
    match host.crash(choice) {
        Ok(host) => Ok(host),
        Err((_, memory)) => Err(memory),
    }
}

/// Adds the lines that a text shows.
fn add_lines(lines: &mut Vec<u8>, text: &str) -> Result<(), AllocError> {
    for byte in text.as_bytes() {
        lines.push(if *byte == b'/' { b'\n' } else { *byte })?;
    }
    Ok(())
}

/// How many of the replies these bytes are.
fn count_of(alloc: Global, replies: &str, output: &[u8]) -> Result<Option<usize>, AllocError> {
    let mut all = Vec::new(alloc);
    if output.is_empty() {
        return Ok(Some(0));
    }
    for (before, reply) in replies.split('~').enumerate() {
        add_lines(&mut all, reply)?;
        if all.as_slice() == output {
            return Ok(Some(before.saturating_add(1)));
        }
    }
    Ok(None)
}

/// Whether the status says what failed, and the report has the stop that belongs to it.
fn says_what_failed(ended: &Ended, host: &MemHost) -> bool {
    match ended.status {
        0 | 1 => host.faults() == 0 && host.emit_faults() == 0 && ended.report.stop.is_none(),
        5 => 0 < host.faults() && ended.report.stop == Some(Stop::Disk),
        6 => 0 < host.emit_faults() && ended.report.stop.is_none(),
        _ => false,
    }
}

/// How many replies are out after a run of the script on an empty folder, where the status says what failed and the report counts as
/// many.
pub(crate) fn replied(
    alloc: Global,
    case: &Case,
    ended: &Ended,
    host: &MemHost,
) -> Result<Option<usize>, AllocError> {
    let count = count_of(alloc, case.replies, host.output())?;
    let is_told = says_what_failed(ended, host)
        && count.map(|count| count as u64) == Some(ended.report.statements);
    Ok(if is_told { count } else { None })
}

/// The answers to the question, where it is served to its end.
pub(crate) fn answers_of(
    alloc: Global,
    case: &Case,
    host: &mut MemHost,
) -> Result<Option<Vec<u8>>, Memory> {
    let before = host.output().len();
    let ended = serve(alloc, case.question, host)?;
    let output = host.output();
    let from = before.min(output.len());
    Ok(if ended.status <= 1 {
        Some(output[from..].to_vec(alloc)?)
    } else {
        None
    })
}

/// Whether these are the answers after so many commits.
fn is_after(
    alloc: Global,
    case: &Case,
    commits: Option<&usize>,
    answers: &[u8],
) -> Result<bool, AllocError> {
    let Some(wanted) = commits.and_then(|commits| case.answers.split('~').nth(*commits)) else {
        return Ok(false);
    };
    let mut lines = Vec::new(alloc);
    add_lines(&mut lines, wanted)?;
    Ok(lines.as_slice() == answers)
}

/// Whether these are the answers after the commits of so many replies, or of one more.
pub(crate) fn is_kept(
    alloc: Global,
    case: &Case,
    replies: usize,
    answers: &[u8],
) -> Result<bool, AllocError> {
    let now = case.commits.get(replies);
    let next = case.commits.get(replies.saturating_add(1));
    Ok(is_after(alloc, case, now, answers)? || is_after(alloc, case, next, answers)?)
}
