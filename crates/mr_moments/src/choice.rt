//! What the words of the command line say.

ghost use Rattle.std.specs.Prelude.{◌≡◌, IfOk, map, option_map, string_bytes, codes};
ghost use Rattle.mr_moments.specs.Form.{has_behind as stands_behind, is_option as is_option_word, are_option as are_option_words, said as said_in, said_now as now_in, said_clock as clock_in, moments_of as moments_in, behind};

use crate::command::{Found, read_option};
use crate::seconds::{seconds_of, values_of};
use crate::source::Moments;
use mr_base::Memory;
use sqlite_items::Items;
use std::alloc::Global;

/// Whether a byte or more stands behind these, with which the word begins.
fn has_behind(front: &[u8], word: &[u8]) -> bool
    ensures { result ≡ stands_behind front.now word.now }
{
    match word.strip_prefix(front) {
        None => false,
        Some(rest) => !rest.is_empty(),
    }
}

/// Whether the one word is an option with a value.
fn are_option(words: &[String]) -> bool
    ensures { result ≡ are_option_words (map string_bytes words.now) }
{
    match words {
        [word] => {
            has_behind(b"--now=", word.as_bytes()) || has_behind(b"--clock=", word.as_bytes())
        }
        _ => false,
    }
}

/// Always the moment that is written.
fn said_now(alloc: Global, text: Option<&str>) -> Result<Option<Moments>, Memory>
    ensures { IfOk result (λ moments. moments ≡ now_in (option_map (λ s. s.now) text.entry)) }
{
    let Some(text) = text else {
        return Ok(None);
    };
    let Some(seconds) = seconds_of(text.as_bytes()) else {
        return Ok(None);
    };
    let mut values = Items::new(alloc);
    values.push(seconds)?;
    Ok(Some(Moments::Given(values)))
}

/// The moments that are written.
fn said_clock(alloc: Global, text: Option<&str>) -> Result<Option<Moments>, Memory>
    ensures { IfOk result (λ moments. moments ≡ clock_in (option_map (λ s. s.now) text.entry)) }
{
    let Some(text) = text else {
        return Ok(None);
    };
    match values_of(alloc, text.as_bytes())? {
        None => Ok(None),
        Some(values) => Ok(Some(Moments::Given(values))),
    }
}

/// What the option says.
fn said(alloc: Global, found: Found) -> Result<Option<Moments>, Memory>
    ensures { IfOk result (λ moments. moments ≡ said_in (option_map (λ s. s.now) found.entry.now) (option_map (λ s. s.now) found.entry.clock)) }
{
    match said_now(alloc, found.now)? {
        Some(moments) => Ok(Some(moments)),
        None => said_clock(alloc, found.clock),
    }
}

/// Where the moments come from, by the words after the program's name; None where they are in no
/// form.
pub fn moments_of(alloc: Global, words: &[String]) -> Result<Option<Moments>, Memory>
    ensures { IfOk result (λ moments. moments ≡ moments_in (map string_bytes words.now)) }
{
    if words.is_empty() {
        return Ok(Some(Moments::System));
    }
    if !are_option(words) {
        return Ok(None);
    }
    match read_option(alloc, words) {
        Ok(found) => said(alloc, found),
        Err(_) => Err(Memory),
    }
}
