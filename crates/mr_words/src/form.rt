//! Which words are in form, and what they say.
ghost use Rattle.std.specs.Prelude.{◌≡◌, ◌↔◌, ◌+◌, ◌^◌, ◌<◌, IsTrue, IfSome, length, map, string_bytes};
ghost use Rattle.mr_words.specs.Form.{IsRunForm, is_run as is_command, with_now as and_now, with_limit as and_limit, with_folder as and_folder, with_option, with_other as and_other, with_word as and_word, ended as ended_as, told_in, options_in};

use crate::numbers::{limit_of, number_of};
use crate::options::Options;
use crate::told::{Next, Told};

/// What was said, with a value of `--now`.
fn with_now(text: &[u8], told: Told) -> Option<Told>
    ensures { result ≡ and_now text.now told }
{
    if told.now.is_some() {
        return None;
    }
    let now = number_of(text)?;
    Some(Told {
        folder: told.folder,
        now: Some(now),
        log_limit: told.log_limit,
    })
}

/// What was said, with a value of `--log-limit`.
fn with_limit(text: &[u8], told: Told) -> Option<Told>
    ensures { result ≡ and_limit text.now told }
{
    if told.log_limit.is_some() {
        return None;
    }
    let limit = limit_of(text)?;
    Some(Told {
        folder: told.folder,
        now: told.now,
        log_limit: Some(limit),
    })
}

/// What was said, with a folder at this place.
fn with_folder(at: usize, word: &[u8], told: Told) -> Option<Told>
    ensures { result ≡ and_folder at word.now told }
{
    if word.is_empty() || told.folder.is_some() {
        return None;
    }
    Some(Told {
        folder: Some(at),
        now: told.now,
        log_limit: told.log_limit,
    })
}

/// With what stands behind `--now` in its word.
fn with_now_option(rest: &[u8], told: Told) -> Option<(Next, Told)>
    ensures { result ≡ with_option Next.Now and_now rest.now told }
{
    match rest {
        [] => Some((Next::Now, told)),
        [b'=', text @ ..] => Some((Next::Any, with_now(text, told)?)),
        _ => None,
    }
}

/// With what stands behind `--log-limit` in its word.
fn with_limit_option(rest: &[u8], told: Told) -> Option<(Next, Told)>
    ensures { result ≡ with_option Next.LogLimit and_limit rest.now told }
{
    match rest {
        [] => Some((Next::LogLimit, told)),
        [b'=', text @ ..] => Some((Next::Any, with_limit(text, told)?)),
        _ => None,
    }
}

/// With `--`, or a folder.
fn with_other(at: usize, word: &[u8], told: Told) -> Option<(Next, Told)>
    ensures { result ≡ and_other at word.now told }
{
    match word {
        [b'-', b'-'] => Some((Next::Folder, told)),
        [] | [b'-', ..] => None,
        _ => Some((Next::Any, with_folder(at, word, told)?)),
    }
}

/// With a word where any may stand.
fn with_any(at: usize, word: &[u8], told: Told) -> Option<(Next, Told)>
    ensures { result ≡ and_word Next.Any at word.now told }
{
    if let Some(rest) = word.strip_prefix(b"--now") {
        return with_now_option(rest, told);
    }
    match word.strip_prefix(b"--log-limit") {
        Some(rest) => with_limit_option(rest, told),
        None => with_other(at, word, told),
    }
}

/// With the word at this place.
fn with_word(next: Next, at: usize, word: &[u8], told: Told) -> Option<(Next, Told)>
    ensures { result ≡ and_word next at word.now told }
{
    match next {
        Next::Any => with_any(at, word, told),
        Next::Now => Some((Next::Any, with_now(word, told)?)),
        Next::LogLimit => Some((Next::Any, with_limit(word, told)?)),
        Next::Folder => Some((Next::Folder, with_folder(at, word, told)?)),
    }
}

/// No value is missing.
fn ended(next: Next, told: Told) -> Option<Told>
    ensures { result ≡ ended_as next told }
{
    match next {
        Next::Any | Next::Folder => Some(told),
        Next::Now | Next::LogLimit => None,
    }
}

/// With the words from this place on.
fn told_by(next: Next, at: usize, told: Told, words: &[String]) -> Option<Told>
    requires { at + length words.now < 2 ^ 64 }
    ensures { result ≡ told_in next at told (map string_bytes words.now) }
{
    match words {
        [] => ended(next, told),
        [word, rest @ ..] => {
            let (next, told) = with_word(next, at, word.as_bytes(), told)?;
            told_by(next, at + 1, told, rest)
        }
    }
}

/// Whether a word is the command.
fn is_run(word: &[u8]) -> bool
    ensures { result ≡ is_command word.now }
{
    word == b"run".as_slice()
}

/// What the words say.
fn said(words: &[String]) -> Option<Options>
    ensures { result ≡ options_in (map string_bytes words.now) }
{
    match words {
        [] => None,
        [command, rest @ ..] => {
            if !is_run(command.as_bytes()) {
                return None;
            }
            let nothing = Told {
                folder: None,
                now: None,
                log_limit: None,
            };
            let told = told_by(Next::Any, 1, nothing, rest)?;
            let folder = told.folder?;
            Some(Options {
                folder,
                now: told.now,
                log_limit: told.log_limit,
            })
        }
    }
}

/// What the words after the program's name say: `run FOLDER [--now=SECS] [--log-limit=BYTES]`. None where
/// they are in no form. Takes no memory.
pub fn options_of(words: &[String]) -> Option<Options>
    ensures options { result ≡ options_in (map string_bytes words.now) }
    ensures inside { IfSome result (λ o. o.folder < length words.now) }
{
    said(words)
}

/// Whether the words, those after the program's name, are in form.
pub fn is_form(words: &[String]) -> bool
    ensures { IsTrue result ↔ IsRunForm (map string_bytes words.now) }
{
    options_of(words).is_some()
}
