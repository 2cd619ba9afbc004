//! Words in form and words in none, as tables.

use mr_base::Memory;
use mr_moments::{Moments, moments_of};
use std::alloc::Global;
use std::test::Fail;

/// The words, parted by spaces, and the moments that they give.
const GIVEN: [(&str, &[u64]); 6] = [
    ("--now=0", &[0]),
    ("--now=007", &[7]),
    ("--now=00000000000000000007", &[7]),
    ("--now=18446744073709551615", &[u64::MAX]),
    ("--clock=50,40,40", &[50, 40, 40]),
    ("--clock=7", &[7]),
];

const WRONG: [&str; 18] = [
    "--now=000000000000000000007",
    "--clock=5,000000000000000000007",
    "--now=",
    "--now",
    "--now 5",
    "--now=5 --clock=6",
    "--now=18446744073709551616",
    "--now=+5",
    "--now=-5",
    "--now=5,6",
    "--clock=",
    "--clock=5,",
    "--clock=,5",
    "--clock=5,,6",
    "-now=5",
    "now=5",
    "--help",
    "",
];

fn told(alloc: Global, line: &str) -> Result<Option<Moments>, Memory> {
    let mut words = Vec::new(alloc);
    for word in line.split(' ') {
        match words.push(String::from_str(alloc, word)?) {
            Ok(()) => {}
            Err(_) => return Err(Memory),
        }
    }
    moments_of(alloc, &words)
}

fn gives(alloc: Global, line: &str, seconds: &[u64]) -> Result<bool, Memory> {
    match told(alloc, line)? {
        Some(Moments::Given(values)) => Ok(values.as_slice() == seconds),
        _ => Ok(false),
    }
}

#[test]
fn moments_are_given(rt: HostRuntime) -> Result<(), Fail> {
    for (line, seconds) in GIVEN {
        assert!(rt; gives(rt.alloc(), line, seconds)?, "{line}");
    }
    Ok(())
}

#[test]
fn words_in_no_form(rt: HostRuntime) -> Result<(), Fail> {
    for line in WRONG {
        assert!(rt; told(rt.alloc(), line)?.is_none(), "{line}");
    }
    Ok(())
}

#[test]
fn no_word_is_the_systems_clock(rt: HostRuntime) -> Result<(), Fail> {
    let is_system = match moments_of(rt.alloc(), &[])? {
        Some(Moments::System) => true,
        _ => false,
    };
    assert!(rt; is_system);
    Ok(())
}
