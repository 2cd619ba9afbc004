//! Reading the edits of a record.
ghost use Rattle.std.specs.Prelude.{◌≡◌, ◌≤◌, length, IfOk, IfErr, Ok};
ghost use Rattle.mr_manifest.specs.Fields.{number_given};
ghost use Rattle.mr_manifest.specs.Edits.{level_in, run_in, dropped_in, log_in, commits_in, place_in, below_in, next_in, sequence_in, format_in, edit_in, edits_in, read_edits as edits_of};
ghost use Rattle.mr_manifest.specs.Given.{edit_given, EditsGiven, IsAnswer, IsWithin};

use crate::edit::{Edit, EditList, FORMAT, MAX_LEVEL, MAX_NUMBER};
use crate::fields::{BytesLeft, u32_in, u64_in};
use crate::stop::ReadStop;
use mr_base::DefAnswer;
use sqlite_items::Items;
use std::alloc::Global;

/// A level.
fn level_of(bytes: &[u8]) -> Result<(u8, &[u8]), BytesLeft>
    ensures { number_given result ≡ level_in bytes.now }
{
    match bytes {
        [level @ 0..=MAX_LEVEL, rest @ ..] => Ok((*level, rest)),
        _ => Err(bytes.len()),
    }
}

fn run_of(bytes: &[u8]) -> Result<(Edit, &[u8]), BytesLeft>
    ensures { edit_given result ≡ run_in bytes.now }
{
    let (family, rest) = u32_in(bytes)?;
    let (level, rest) = level_of(rest)?;
    let (file, rest) = u64_in(rest)?;
    let (length, rest) = u64_in(rest)?;
    let (entries, rest) = u64_in(rest)?;
    let run = Edit::RunAdded {
        family,
        level,
        file,
        length,
        entries,
    };
    Ok((run, rest))
}

fn dropped_of(bytes: &[u8]) -> Result<(Edit, &[u8]), BytesLeft>
    ensures { edit_given result ≡ dropped_in bytes.now }
{
    let (file, rest) = u64_in(bytes)?;
    Ok((Edit::RunDropped(file), rest))
}

fn log_of(bytes: &[u8]) -> Result<(Edit, &[u8]), BytesLeft>
    ensures { edit_given result ≡ log_in bytes.now }
{
    let (file, rest) = u64_in(bytes)?;
    Ok((Edit::LiveLog(file), rest))
}

/// A count of commits before this place.
fn commits_of(place: u64, bytes: &[u8]) -> Result<(u64, &[u8]), BytesLeft>
    ensures { number_given result ≡ commits_in place bytes.now }
{
    let (commits, rest) = u64_in(bytes)?;
    if place < commits {
        return Err(bytes.len());
    }
    Ok((commits, rest))
}

fn place_of(bytes: &[u8]) -> Result<(Edit, &[u8]), BytesLeft>
    ensures { edit_given result ≡ place_in bytes.now }
{
    let (place, rest) = u64_in(bytes)?;
    let (commits, rest) = commits_of(place, rest)?;
    Ok((Edit::BinlogPlace { place, commits }, rest))
}

/// A number below a bound.
fn below(bound: u64, bytes: &[u8]) -> Result<(u64, &[u8]), BytesLeft>
    ensures { number_given result ≡ below_in bound bytes.now }
{
    let (number, rest) = u64_in(bytes)?;
    if number < bound {
        Ok((number, rest))
    } else {
        Err(bytes.len())
    }
}

fn next_of(bytes: &[u8]) -> Result<(Edit, &[u8]), BytesLeft>
    ensures { edit_given result ≡ next_in bytes.now }
{
    let (file, rest) = below(MAX_NUMBER + 1, bytes)?;
    Ok((Edit::NextFile(file), rest))
}

fn sequence_of(bytes: &[u8]) -> Result<(Edit, &[u8]), BytesLeft>
    ensures { edit_given result ≡ sequence_in bytes.now }
{
    let (sequence, rest) = below(MAX_NUMBER, bytes)?;
    Ok((Edit::LastSequence(sequence), rest))
}

fn format_of(bytes: &[u8]) -> Result<(Edit, &[u8]), BytesLeft>
    ensures { edit_given result ≡ format_in bytes.now }
{
    let (format, rest) = u32_in(bytes)?;
    if format == FORMAT {
        Ok((Edit::Format(format), rest))
    } else {
        Err(bytes.len())
    }
}

/// The edit in front.
fn edit_of(bytes: &[u8]) -> Result<(Edit, &[u8]), BytesLeft>
    ensures { edit_given result ≡ edit_in bytes.now }
{
    match bytes {
        [1, rest @ ..] => run_of(rest),
        [2, rest @ ..] => dropped_of(rest),
        [3, rest @ ..] => log_of(rest),
        [4, rest @ ..] => place_of(rest),
        [5, rest @ ..] => next_of(rest),
        [6, rest @ ..] => sequence_of(rest),
        [7, rest @ ..] => format_of(rest),
        _ => Err(bytes.len()),
    }
}

/// All edits.
fn edits_left(alloc: Global, bytes: &[u8]) -> Result<EditList, ReadStop>
    ensures { EditsGiven result (edits_in (length bytes.now) bytes.now) }
{
    let mut edits = Items::new(alloc);
    let mut rest = bytes;
    'reading: for i in 0..bytes.len() {
        if rest.is_empty() {
            return Ok(edits);
        }
        let (edit, behind) = match edit_of(rest) {
            Ok(read) => read,
            Err(left) => return Err(ReadStop::Left(left)),
        };
        match edits.push(edit) {
            Ok(()) => {}
            Err(_) => return Err(ReadStop::Memory),
        }
        rest = behind;
    }
    if rest.is_empty() {
        return Ok(edits);
    }
    Err(ReadStop::Left(rest.len()))
}

/// The edits that a record's body is, or its first offending place. Takes memory.
pub fn read_edits(alloc: Global, bytes: &[u8]) -> Result<EditList, DefAnswer>
    ensures ok { IfOk result (λ es. edits_of bytes.now ≡ Ok es) }
    ensures err { IfErr result (IsAnswer (edits_of bytes.now)) }
    ensures within { IfErr result (IsWithin (length bytes.now)) }
{
    match edits_left(alloc, bytes) {
        Ok(edits) => Ok(edits),
        Err(ReadStop::Memory) => Err(DefAnswer::Memory),
        Err(ReadStop::Left(left)) => Err(DefAnswer::Malformed(
            bytes.len().saturating_sub(left) as u64,
        )),
    }
}
