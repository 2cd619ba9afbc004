//! A source that fails, and an output that fails.

use crate::running::{AT_SEVEN, CHOICES, Ended, crash, gives, run_line, serve, without_stop};
use mr_base::Memory;
use mr_memhost::{Choice, ListClock, MemHost, MemSource};
use std::alloc::Global;
use std::test::Fail;

const CREATE: &[u8] = b"CREATE TABLE t (id BIGINT NOT NULL, v BIGINT, PRIMARY KEY (id));";

/// How a run ends whose source gives so many bytes at once and fails at its second take, and the length of the output.
fn run_failing(alloc: Global, piece: usize) -> Result<(Ended, usize), Memory> {
    let mut host = MemHost::new(alloc);
    let mut clock = ListClock::new(alloc, &[])?;
    let mut source = MemSource::new(alloc, CREATE, piece.max(1), Some(2))?;
    let ended = run_line(alloc, AT_SEVEN, &mut clock, &mut source, &mut host)?;
    Ok((ended, host.output().len()))
}

#[test]
fn a_source_that_fails(rt: HostRuntime) -> Result<(), Fail> {
    assert_eq!(rt;
        run_failing(rt.alloc(), 10),
        Ok((without_stop(4, 10, 0), 0))
    );
    assert_eq!(rt;
        run_failing(rt.alloc(), 4096),
        Ok((without_stop(4, 64, 1), 5))
    );
    Ok(())
}

/// The number of calls of the host in a run that makes the table.
fn calls_to_create(alloc: Global) -> Result<u64, Memory> {
    let mut host = MemHost::new(alloc);
    let _ = serve(alloc, CREATE, &mut host)?;
    Ok(host.calls())
}

/// How a run ends whose last call, the first one of the output, fails, where nothing is out and the table is there when the folder is
/// reopened.
fn run_unheard(alloc: Global, choice: Choice) -> Result<Option<Ended>, Memory> {
    let last = calls_to_create(alloc)?;
    let mut host = MemHost::new(alloc);
    host.fail_calls(&[last])?;
    let ended = serve(alloc, CREATE, &mut host)?;
    let is_silent = host.output().is_empty() && host.emit_faults() == 1;
    let mut host = crash(host, choice)?;
    let is_there = gives(alloc, b"SELECT * FROM t;", "ROWS 0/", &mut host)?;
    Ok(if is_silent && is_there {
        Some(ended)
    } else {
        None
    })
}

#[test]
fn an_output_that_fails(rt: HostRuntime) -> Result<(), Fail> {
    for choice in CHOICES {
        let unheard = without_stop(6, 64, 0);
        assert_eq!(rt;
            run_unheard(rt.alloc(), choice),
            Ok(Some(unheard)),
            "{choice:?}"
        );
    }
    Ok(())
}
