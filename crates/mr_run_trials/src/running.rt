//! Runs of scripts on a folder in memory.

use mr_base::{Memory, Source};
use mr_memhost::{Choice, ListClock, MemHost, MemSource};
use mr_run::{Report, run};
use std::alloc::{AllocError, Global};

/// What becomes of the calls since a file's last sync.
pub(crate) const CHOICES: [Choice; 4] = [
    Choice::Keep,
    Choice::Drop,
    Choice::Fill(0xA7),
    Choice::Fill(0),
];

/// The words of a run at moment 7.
pub(crate) const AT_SEVEN: &str = "run f --now=7";

/// How a run ended.
#[derive(Clone, Copy, Debug, PartialEq, Eq)]
pub(crate) struct Ended {
    pub(crate) status: u8,
    pub(crate) report: Report,
}

/// An ending without a stop.
pub(crate) fn without_stop(status: u8, taken: usize, statements: u64) -> Ended {
    Ended {
        status,
        report: Report {
            stop: None,
            taken: taken as u64,
            statements,
        },
    }
}

/// The words, parted by spaces.
fn words_of(alloc: Global, line: &str) -> Result<Vec<String>, AllocError> {
    let mut words = Vec::new(alloc);
    for word in line.split(' ') {
        words.push(String::from_str(alloc, word)?)?;
    }
    Ok(words)
}

/// Runs the program with these words and this clock.
pub(crate) fn run_line<S: Source>(
    alloc: Global,
    line: &str,
    clock: &mut ListClock,
    source: &mut S,
    host: &mut MemHost,
) -> Result<Ended, Memory> {
    let words = words_of(alloc, line)?;
    let mut report = Report {
        stop: None,
        taken: 9,
        statements: 9,
    };
    let status = run(alloc, &words, source, host, clock, &mut report);
    Ok(Ended { status, report })
}

/// Serves a script that comes in pieces of 4096 bytes, with these words and a clock that stands at 0.
pub(crate) fn serve_with(
    alloc: Global,
    line: &str,
    script: &[u8],
    host: &mut MemHost,
) -> Result<Ended, Memory> {
    let mut clock = ListClock::new(alloc, &[])?;
    let mut source = MemSource::new(alloc, script, 4096, None)?;
    run_line(alloc, line, &mut clock, &mut source, host)
}

/// Serves a script at moment 7.
pub(crate) fn serve(alloc: Global, script: &[u8], host: &mut MemHost) -> Result<Ended, Memory> {
    serve_with(alloc, AT_SEVEN, script, host)
}

/// The folder after a crash.
pub(crate) fn crash(host: MemHost, choice: Choice) -> Result<MemHost, Memory> {
    match host.crash(choice) {
        Ok(host) => Ok(host),
        Err((_, memory)) => Err(memory),
    }
}

/// The lines that a text shows: a `/` stands for the end of each.
pub(crate) fn lines_of(alloc: Global, text: &str) -> Result<Vec<u8>, AllocError> {
    let mut lines = Vec::new(alloc);
    for byte in text.as_bytes() {
        let byte = if *byte == b'/' { b'\n' } else { *byte };
        lines.push(byte)?;
    }
    Ok(lines)
}

/// Whether the script is served to its end at moment 7 and puts this out.
pub(crate) fn puts_out(
    alloc: Global,
    script: &[u8],
    wanted: &[u8],
    host: &mut MemHost,
) -> Result<bool, Memory> {
    let before = host.output().len();
    let ended = serve(alloc, script, host)?;
    let output = host.output();
    let from = before.min(output.len());
    Ok(ended.status <= 1 && &output[from..] == wanted)
}

/// Whether these are the replies to the script, with a `/` for the end of each line.
pub(crate) fn gives(
    alloc: Global,
    script: &[u8],
    replies: &str,
    host: &mut MemHost,
) -> Result<bool, Memory> {
    let lines = lines_of(alloc, replies)?;
    puts_out(alloc, script, &lines, host)
}
