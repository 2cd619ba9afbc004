//! The bytes of the binary log, folders that are damaged, and folders whose tail is mended.

use crate::running::{CHOICES, Ended, crash, gives, serve};
use mr_base::{Memory, Stop};
use mr_memhost::{Choice, MemHost};
use mr_run::Report;
use std::alloc::{AllocError, Global};
use std::test::Fail;

const CREATE: &[u8] = b"CREATE TABLE t (id BIGINT NOT NULL, v BIGINT, PRIMARY KEY (id));";

/// The commit of this table at moment 7, as the log has it.
const TABLE: [u8; 42] = [
    0xA7, 0, 0, 0, 0x25, 0, 0, 0, 0, 0, 0, 0, 7, 1, 1, 0x74, 2, 2, 0x69, 0x64, 3, 0, 0, 0, 0, 0, 1,
    0x76, 3, 0, 0, 0, 1, 1, 0, 1, 0, 0, 0, 0, 0, 0,
];

/// The commit of its row (1, 2).
const ROW: [u8; 41] = [
    0xA7, 0, 0, 0, 0x24, 0, 0, 0, 0, 0, 0, 0, 7, 0, 0, 0, 0, 1, 1, 1, 0x74, 0, 2, 1, 0, 0, 0, 0, 0,
    0, 0, 1, 1, 0, 0, 0, 0, 0, 0, 0, 2,
];

/// A log in words: `table` and `row` for the two commits, and a number for each other byte.
fn log_of(alloc: Global, words: &str) -> Result<Vec<u8>, AllocError> {
    let mut log = Vec::new(alloc);
    for word in words.split(' ') {
        match word {
            "table" => log.extend_from_slice(&TABLE)?,
            "row" => log.extend_from_slice(&ROW)?,
            _ => log.push(word.parse().unwrap_or(0))?,
        }
    }
    Ok(log)
}

/// A folder with this log.
fn folder_of(alloc: Global, words: &str) -> Result<MemHost, Memory> {
    let log = log_of(alloc, words)?;
    let mut host = MemHost::new(alloc);
    host.add_file(1, &log)?;
    Ok(host)
}

/// Whether the folder has just this log.
fn has_log(alloc: Global, host: &MemHost, words: &str) -> Result<bool, Memory> {
    let log = log_of(alloc, words)?;
    Ok(host.file(1) == log.as_slice())
}

/// Whether the log is as in the format after no statement, after the table and after its row, with a crash behind each.
fn is_in_the_format(alloc: Global, choice: Choice) -> Result<bool, Memory> {
    let mut host = MemHost::new(alloc);
    for (script, words) in [
        (b"".as_slice(), "0"),
        (CREATE, "table 0"),
        (b"INSERT INTO t VALUES (1,2);", "table row 0"),
        (b"SELECT * FROM t;", "table row 0"),
    ] {
        let ended = serve(alloc, script, &mut host)?;
        if ended.status != 0 || !has_log(alloc, &host, words)? {
            return Ok(false);
        }
        host = crash(host, choice)?;
    }
    Ok(host.output() == b"OK 0\nOK 1\nROWS 1\n1\t2\n".as_slice())
}

#[test]
fn the_log_is_as_in_the_format(rt: HostRuntime) -> Result<(), Fail> {
    for choice in CHOICES {
        assert_eq!(rt;
            is_in_the_format(rt.alloc(), choice),
            Ok(true),
            "{choice:?}"
        );
    }
    Ok(())
}

/// Logs that are damaged, each with the first offending place: a gate with no whole record behind it, a body with a kind that is none, and
/// no gate behind the last record.
const DAMAGED: &str = "\
167 1 2 3|0
167 0 0 0 9 0 0 0 0 0 0 0 7 9 0|13
table row|42";

/// How a run on the folder ends, where it puts nothing out and the log stays.
fn refusal_of(alloc: Global, words: &str) -> Result<Option<Ended>, Memory> {
    let mut host = folder_of(alloc, words)?;
    let ended = serve(alloc, CREATE, &mut host)?;
    let is_same = host.output().is_empty() && has_log(alloc, &host, words)?;
    Ok(if is_same { Some(ended) } else { None })
}

#[test]
fn damaged_folders_are_refused(rt: HostRuntime) -> Result<(), Fail> {
    for row in DAMAGED.split('\n') {
        if let Some((words, place)) = row.split_once('|') {
            let report = Report {
                stop: Some(Stop::Damaged {
                    file: 1,
                    at: place.parse()?,
                }),
                taken: 0,
                statements: 0,
            };
            let ended = Ended { status: 7, report };
            assert_eq!(rt; refusal_of(rt.alloc(), words), Ok(Some(ended)), "{words}");
        }
    }
    Ok(())
}

/// Whether the folder has the table with its one row, and its log is then without what stood behind the row's commit.
fn is_mended(alloc: Global, words: &str) -> Result<bool, Memory> {
    let mut host = folder_of(alloc, words)?;
    let is_there = gives(alloc, b"SELECT * FROM t;", "ROWS 1/1\t2/", &mut host)?;
    Ok(is_there && has_log(alloc, &host, "table row 0")?)
}

#[test]
fn tails_are_mended(rt: HostRuntime) -> Result<(), Fail> {
    for words in "table row 0,table row 167,table row 255,table row 0 0 0 0 9 7".split(',') {
        assert_eq!(rt; is_mended(rt.alloc(), words), Ok(true), "{words}");
    }
    Ok(())
}
