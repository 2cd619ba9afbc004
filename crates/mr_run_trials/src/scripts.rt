//! Scripts that are served to their end.

use crate::rows::ROWS;
use crate::running::{AT_SEVEN, CHOICES, Ended, crash, lines_of, run_line, without_stop};
use mr_base::Memory;
use mr_memhost::{Choice, ListClock, MemHost, MemSource};
use std::alloc::{AllocError, Global};
use std::test::Fail;

/// The clock's values, parted by spaces.
fn values_of(alloc: Global, text: &str) -> Result<Vec<u64>, AllocError> {
    let mut values = Vec::new(alloc);
    for value in text.split(' ') {
        if let Ok(value) = value.parse() {
            values.push(value)?;
        }
    }
    Ok(values)
}

/// How a script with these replies ends: with status 1 where some reply is an error.
fn ending_of(script: &str, replies: &str) -> Ended {
    let mut status = 0;
    let mut statements = 0_u64;
    for line in replies.split('/') {
        if line.starts_with("ERROR ") {
            status = 1;
            statements = statements.saturating_add(1);
        } else if line.starts_with("OK ") || line.starts_with("ROWS ") {
            statements = statements.saturating_add(1);
        }
    }
    without_stop(status, script.len(), statements)
}

/// Serves a script that comes in pieces of so many bytes. With no values of the clock the moment is 7.
fn serve_by(
    alloc: Global,
    values: &str,
    script: &str,
    piece: usize,
    host: &mut MemHost,
) -> Result<Ended, Memory> {
    let line = if values.is_empty() { AT_SEVEN } else { "run f" };
    let values = values_of(alloc, values)?;
    let mut clock = ListClock::new(alloc, &values)?;
    let mut source = MemSource::new(alloc, script.as_bytes(), piece.max(1), None)?;
    run_line(alloc, line, &mut clock, &mut source, host)
}

/// Whether a run gives its replies.
fn is_run(
    alloc: Global,
    values: &str,
    script: &str,
    replies: &str,
    piece: usize,
    host: &mut MemHost,
) -> Result<bool, Memory> {
    let lines = lines_of(alloc, replies)?;
    let before = host.output().len();
    let ended = serve_by(alloc, values, script, piece, host)?;
    let output = host.output();
    let from = before.min(output.len());
    Ok(ended == ending_of(script, replies) && &output[from..] == lines.as_slice())
}

/// Whether the run that a text shows gives its replies.
fn is_shown(alloc: Global, text: &str, piece: usize, host: &mut MemHost) -> Result<bool, Memory> {
    let Some((values, rest)) = text.split_once('|') else {
        return Ok(false);
    };
    let Some((script, replies)) = rest.split_once('|') else {
        return Ok(false);
    };
    is_run(alloc, values, script, replies.trim(), piece, host)
}

/// Whether the runs of a row give their replies, each on the folder that a crash leaves of the one before.
fn is_row(alloc: Global, runs: &str, piece: usize, choice: Choice) -> Result<bool, Memory> {
    let mut host = MemHost::new(alloc);
    for text in runs.split('^') {
        if !is_shown(alloc, text, piece, &mut host)? {
            return Ok(false);
        }
        host = crash(host, choice)?;
    }
    Ok(true)
}

/// Whether that is so for pieces of several lengths and each crash.
fn is_always(alloc: Global, runs: &str) -> Result<bool, Memory> {
    for choice in CHOICES {
        for piece in [4096, 1, 3] {
            if !is_row(alloc, runs, piece, choice)? {
                return Ok(false);
            }
        }
    }
    Ok(true)
}

#[test]
fn scripts_have_their_replies(rt: HostRuntime) -> Result<(), Fail> {
    for row in ROWS.split('~') {
        if let Some((shown, runs)) = row.split_once('^') {
            assert_eq!(rt; is_always(rt.alloc(), runs), Ok(true), "{shown}");
        }
    }
    Ok(())
}
