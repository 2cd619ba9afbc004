//! `mr_reference` answers a script of SQL statements, which it reads from standard input, as the
//! definitions say. It is slow, and keeps nothing.
#![tactic(auto)]

mod answering;
mod failure;
mod reading;

use answering::answered;
use failure::Failure;
use mr_base::Clock;
use mr_edge::{StdinSource, SystemClock};
use mr_memhost::ListClock;
use mr_moments::{Moments, moments_of};
use std::io::Write;
use std::process::ExitCode;
use std::{env, io};

/// The words after the program's name. `InvalidData` where one is no UTF-8.
fn words_of(rt: &HostRuntime) -> io::Result<Vec<String>> {
    let mut words = Vec::new(rt.alloc());
    for word in env::args(rt)?.skip(1) {
        words.push(word)?;
    }
    Ok(words)
}

/// Where the moments come from, as the words say.
fn moments(rt: &HostRuntime) -> Result<Moments, Failure> {
    let words = match words_of(rt) {
        Ok(words) => words,
        Err(error) if error.kind() == io::ErrorKind::OutOfMemory => return Err(Failure::Memory),
        Err(_) => return Err(Failure::Usage),
    };
    match moments_of(rt.alloc(), &words)? {
        Some(moments) => Ok(moments),
        None => Err(Failure::Usage),
    }
}

/// Prints the replies of the script, and tells whether one of them is an error.
fn print_replies<C: Clock>(rt: &HostRuntime, clock: &mut C) -> Result<bool, Failure> {
    let ran = answered(rt.alloc(), &mut StdinSource::new(rt), clock)?;
    match io::writer(rt).write_all(ran.output.as_slice()) {
        Ok(()) => Ok(ran.failed),
        Err(_) => Err(Failure::Write),
    }
}

fn run(rt: &HostRuntime) -> Result<bool, Failure> {
    match moments(rt)? {
        Moments::System => print_replies(rt, &mut SystemClock::new(rt)),
        Moments::Given(values) => {
            let mut clock = ListClock::new(rt.alloc(), values.as_slice())?;
            print_replies(rt, &mut clock)
        }
    }
}

fn main(rt: HostRuntime) -> ExitCode {
    match run(&rt) {
        Ok(failed) => ExitCode::from(failed as u8),
        Err(failure) => {
            let _ = eprintln!(rt; "mr_reference: {failure}");
            ExitCode::from(failure.status())
        }
    }
}
