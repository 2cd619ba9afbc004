//! How fast a script goes through the splitter and the lexer: `mr_lex_bench FILE`.
#![tactic(auto)]

use mr_lex::{Lexer, Split, Splitter};
use std::time::Instant;
use std::{env, fs, io};

/// How many tokens a text has, up to the first place where none begins.
fn tokens(text: &[u8]) -> u64 {
    let mut lexer = Lexer::new(text);
    let mut count: u64 = 0;
    for _ in 0..=text.len() {
        match lexer.next_token() {
            Ok(Some(_)) => count = count.saturating_add(1),
            Ok(None) | Err(_) => return count,
        }
    }
    count
}

/// How many statements a script has, and how many tokens they have.
fn counts(script: &[u8]) -> (u64, u64) {
    let mut splitter = Splitter::new();
    let mut statements: u64 = 0;
    let mut found: u64 = 0;
    let mut from = 0;
    for (at, byte) in script.iter().enumerate() {
        if let Split::End = splitter.feed(*byte) {
            statements = statements.saturating_add(1);
            found = found.saturating_add(tokens(&script[from..at]));
            from = at + 1;
        }
    }
    (statements, found)
}

fn main(rt: HostRuntime) -> io::Result<()> {
    for path in env::args(&rt)?.skip(1) {
        let script = fs::read(&rt, path.as_str())?;
        let start = Instant::now(&rt)?;
        let (statements, found) = counts(script.as_slice());
        let took = start.elapsed(&rt)?.as_millis();
        println!(rt;
            "{} bytes, {statements} statements, {found} tokens, {took} ms",
            script.len()
        )?;
    }
    Ok(())
}
