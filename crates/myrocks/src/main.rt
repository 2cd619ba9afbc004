//! `myrocks run FOLDER [--now=SECS] [--log-limit=BYTES]` serves a script of SQL statements, which it reads from standard input, from
//! the tables in a folder.
#![tactic(auto)]

use mr_base::Stop;
use mr_edge::{FolderHost, StdinSource, SystemClock};
use mr_run::{Report, run};
use mr_words::folders;
use std::process::ExitCode;
use std::{env, io};

/// The words after the program's name. `InvalidData` where one is no UTF-8.
fn words_of(rt: &HostRuntime) -> io::Result<Vec<String>> {
    let mut words = Vec::new(rt.alloc());
    for word in env::args(rt)?.skip(1) {
        words.push(word)?;
    }
    Ok(words)
}

/// Runs the program with these words on the folder that they name.
fn run_on_folder(rt: &HostRuntime, words: &[String], report: &mut Report) -> u8 {
    let Ok(places) = folders(rt.alloc(), words) else {
        return 3;
    };
    let folder = match places.first {
        Some(place) => words.get(place).map_or("", |word| word.as_str()),
        None => "",
    };
    let Ok(mut host) = FolderHost::new(rt, rt.alloc(), folder) else {
        return 3;
    };
    let mut source = StdinSource::new(rt);
    let mut clock = SystemClock::new(rt);
    run(
        rt.alloc(),
        words,
        &mut source,
        &mut host,
        &mut clock,
        report,
    )
}

/// Says on standard error why the run ended early. That it can't be said changes no status.
fn explain(rt: &HostRuntime, status: u8, stop: Option<Stop>) {
    let _ = match (status, stop) {
        (0 | 1, _) => Ok(()),
        (2, _) => rt.eprintln("myrocks: usage"),
        (3, _) => rt.eprintln("myrocks: out of memory"),
        (4, _) => rt.eprintln("myrocks: read fault"),
        (5, _) => rt.eprintln("myrocks: disk fault"),
        (6, _) => rt.eprintln("myrocks: write fault"),
        (8, _) => rt.eprintln("myrocks: script too long"),
        (_, Some(stop)) => eprintln!(rt; "myrocks: {stop}"),
        (_, None) => Ok(()),
    };
}

fn main(rt: HostRuntime) -> ExitCode {
    let mut report = Report {
        stop: None,
        taken: 0,
        statements: 0,
    };
    let status = match words_of(&rt) {
        Ok(words) => run_on_folder(&rt, &words, &mut report),
        Err(error) if error.kind() == io::ErrorKind::OutOfMemory => 3,
        Err(_) => 2,
    };
    explain(&rt, status, report.stop);
    ExitCode::from(status)
}
