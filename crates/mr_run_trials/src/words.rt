//! Words, and the moment that they give.

use crate::running::{Ended, run_line, without_stop};
use mr_base::Memory;
use mr_memhost::{ListClock, MemHost, MemSource};
use std::alloc::Global;
use std::test::Fail;

/// A row is made at moment 0, and expires at moment 10.
const SCRIPT: &[u8] =
    b"CREATE TABLE e (id INT NOT NULL, PRIMARY KEY (id)) COMMENT='ttl_duration=10;'; INSERT INTO e VALUES (1); SELECT id FROM e;";

/// Words out of form.
const OUT_OF_FORM: &str = "run

run f x
run -f
run f --now=7 --now=8
run f --now=
run f g
run --help
run f --log-limit=4095
run f --memtable=65536
exercise f --rows=0 --seed=1";

/// How a run ends with these words, whether no call of the host was made, and how many bytes are left of the source.
fn run_words(alloc: Global, line: &str) -> Result<(Ended, u64, usize), Memory> {
    let mut host = MemHost::new(alloc);
    let mut clock = ListClock::new(alloc, &[])?;
    let mut source = MemSource::new(alloc, SCRIPT, 4096, None)?;
    let ended = run_line(alloc, line, &mut clock, &mut source, &mut host)?;
    Ok((ended, host.calls(), source.rest().len()))
}

#[test]
fn words_out_of_form_touch_nothing(rt: HostRuntime) -> Result<(), Fail> {
    for line in OUT_OF_FORM.split('\n') {
        let untouched = (without_stop(2, 0, 0), 0, SCRIPT.len());
        assert_eq!(rt; run_words(rt.alloc(), line), Ok(untouched), "{line}");
    }
    Ok(())
}

/// Whether the clock's second value is next after a run with these words, in which it gives 0, 10 and from then on 20.
fn output_of(alloc: Global, line: &str) -> Result<Vec<u8>, Memory> {
    let mut host = MemHost::new(alloc);
    let mut clock = ListClock::new(alloc, &[0, 0, 10])?;
    let mut source = MemSource::new(alloc, SCRIPT, 4096, None)?;
    let _ = run_line(alloc, line, &mut clock, &mut source, &mut host)?;
    Ok(host.output().to_vec(alloc)?)
}

/// Whether the row is seen at its third statement, whose clock value is 10.
fn sees_the_row(alloc: Global, line: &str) -> Result<Option<bool>, Memory> {
    let output = output_of(alloc, line)?;
    Ok(match output.as_slice() {
        b"OK 0\nOK 1\nROWS 1\n1\n" => Some(true),
        b"OK 0\nOK 1\nROWS 0\n" => Some(false),
        _ => None,
    })
}

#[test]
fn the_moment_is_said_or_the_clock_s(rt: HostRuntime) -> Result<(), Fail> {
    for line in "run f --now 7,run --now=7 f,run -- -f,run f".split(',') {
        let is_said = line.contains("now");
        assert_eq!(rt; sees_the_row(rt.alloc(), line), Ok(Some(is_said)), "{line}");
    }
    Ok(())
}
