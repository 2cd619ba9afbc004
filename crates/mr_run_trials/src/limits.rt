//! Scripts at the limits: a long statement, a full log, many sessions, and an index over many rows.

use crate::running::{Ended, gives, puts_out, serve_with};
use mr_base::{FullKind, Memory, Stop};
use mr_memhost::MemHost;
use std::alloc::{AllocError, Global};
use std::test::Fail;

/// A statement of so many bytes, and one behind it.
fn long_script(alloc: Global, length: usize) -> Result<Vec<u8>, AllocError> {
    let mut script = Vec::new(alloc);
    script.resize(length, b'x')?;
    script.extend_from_slice(b";COMMIT;")?;
    Ok(script)
}

/// Whether a statement of so many bytes is answered so, and the next one runs.
fn is_answered(alloc: Global, length: usize, replies: &str) -> Result<bool, Memory> {
    let script = long_script(alloc, length)?;
    gives(alloc, &script, replies, &mut MemHost::new(alloc))
}

#[test]
fn a_statement_may_be_too_long(rt: HostRuntime) -> Result<(), Fail> {
    let alloc = rt.alloc();
    assert_eq!(rt; is_answered(alloc, 1_048_576, "ERROR 1064/OK 0/"), Ok(true));
    assert_eq!(rt; is_answered(alloc, 1_048_577, "ERROR 1153/OK 0/"), Ok(true));
    Ok(())
}

/// Adds a text for each number from 1 on, so many times: with the number for each `?` and the end of a line for each `/`.
fn add_each(alloc: Global, all: &mut Vec<u8>, count: u64, text: &str) -> Result<(), AllocError> {
    for number in 0..count {
        let digits = (number + 1).to_string(alloc)?;
        for byte in text.as_bytes() {
            match *byte {
                b'?' => all.extend_from_slice(digits.as_bytes())?,
                b'/' => all.push(b'\n')?,
                other => all.push(other)?,
            }
        }
    }
    Ok(())
}

/// What a pattern shows: parts, parted by `~`, each of which is a count, a `*` and a text that is added so many times.
fn shown(alloc: Global, pattern: &str) -> Result<Vec<u8>, AllocError> {
    let mut all = Vec::new(alloc);
    for part in pattern.split('~') {
        if let Some((count, text)) = part.split_once('*') {
            add_each(alloc, &mut all, count.trim().parse().unwrap_or(0), text)?;
        }
    }
    Ok(all)
}

/// Whether the script that a pattern shows puts out what another one shows.
fn is_served(alloc: Global, script: &str, output: &str) -> Result<bool, Memory> {
    let script = shown(alloc, script)?;
    let output = shown(alloc, output)?;
    puts_out(alloc, &script, &output, &mut MemHost::new(alloc))
}

/// The 65th session is refused, and the 64th one stays current: its own row is in the way, and no other session's claim.
#[test]
fn sessions_may_be_too_many(rt: HostRuntime) -> Result<(), Fail> {
    let script =
        "1*CREATE TABLE t (id BIGINT NOT NULL, v BIGINT, PRIMARY KEY (id)); ~63*SESSION s?; ~1*BEGIN; INSERT INTO t VALUES (1,1); SESSION s64; INSERT INTO t VALUES (1,2); COMMIT; SELECT v FROM t;";
    let output = "1*OK 0/~63*OK 0/~1*OK 0/OK 1/ERROR 1040/ERROR 1062/OK 0/ROWS 1/1/";
    assert_eq!(rt; is_served(rt.alloc(), script, output), Ok(true));
    Ok(())
}

/// An index over more rows than are filled in one portion.
#[test]
fn an_index_is_filled_in_portions(rt: HostRuntime) -> Result<(), Fail> {
    let script =
        "1*CREATE TABLE t (id BIGINT NOT NULL, v BIGINT, PRIMARY KEY (id)); ~600*INSERT INTO t VALUES (?,?); ~1*BEGIN INDEX k ON t (v); WORK 10; FINISH INDEX k ON t; SELECT id FROM t FORCE INDEX (k) WHERE v=577;";
    let output = "1*OK 0/~600*OK 1/~1*OK 0/OK 0/OK 0/ROWS 1/577/";
    assert_eq!(rt; is_served(rt.alloc(), script, output), Ok(true));
    Ok(())
}

/// How a run ends whose log is not to pass 65536 bytes, where it puts this out and the folder then has so many rows.
fn run_full(
    alloc: Global,
    script: &str,
    output: &str,
    count: &str,
) -> Result<Option<Ended>, Memory> {
    let script = shown(alloc, script)?;
    let output = shown(alloc, output)?;
    let mut host = MemHost::new(alloc);
    let ended = serve_with(alloc, "run f --now=7 --log-limit=65536", &script, &mut host)?;
    let is_out = host.output() == output.as_slice();
    let is_counted = gives(alloc, b"SELECT COUNT(*) FROM t;", count, &mut host)?;
    Ok(if is_out && is_counted {
        Some(ended)
    } else {
        None
    })
}

#[test]
fn a_log_may_be_full(rt: HostRuntime) -> Result<(), Fail> {
    let script =
        "1*CREATE TABLE t (id BIGINT NOT NULL, v BIGINT, PRIMARY KEY (id)); ~2000*INSERT INTO t VALUES (?,?);";
    let output = "1*OK 0/~1597*OK 1/";
    let full = Stop::Full {
        what: FullKind::Log(1),
        at: 65_520,
        limit: 65_536,
    };
    let ended = run_full(rt.alloc(), script, output, "ROWS 1/1597/")?;
    assert_eq!(rt; ended.map(|ended| ended.status), Some(9));
    assert_eq!(rt; ended.and_then(|ended| ended.report.stop), Some(full));
    assert_eq!(rt; ended.map(|ended| ended.report.statements), Some(1598));
    Ok(())
}
