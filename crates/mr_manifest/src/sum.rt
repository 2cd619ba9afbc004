//! What the records of a manifest add up to.
ghost use Rattle.std.specs.Prelude.{◌≡◌, ◌≤◌, ◌<◌, ◌+◌, ◌^◌, length, IfOk, OnOk};
ghost use Rattle.mr_manifest.specs.Manifest.{named, named_by, no_records, one_more, breach as breach_of, step, then_step, state};

use crate::edit::{Edit, EditList};
use crate::edit_read::read_edits;
use crate::live::{Live, apply_edits, empty_live};
use crate::rule::numbers_fit;
use mr_base::{DefAnswer, Memory};
use sqlite_items::Items;
use std::alloc::Global;

/// The bytes of a record in front of its body: a gate, and the body's length.
const RECORD_HEAD: u64 = 5;

/// What is live, the log that the records name, the log that they named before the last one, and the last one's edits
/// and place.
#[derive(Drop)]
pub struct Sum {
    pub live: Live,
    pub log: Option<u64>,
    pub before: Option<u64>,
    pub last: EditList,
    pub at: Option<u64>,
}

/// What no records add up to.
pub(crate) fn empty_sum(alloc: Global) -> Sum
    ensures { result ≡ no_records }
{
    Sum {
        live: empty_live(alloc),
        log: None,
        before: None,
        last: Items::new(alloc),
        at: None,
    }
}

/// The live log that an edit names, else this one.
fn log_named(edit: &Edit, log: Option<u64>) -> Option<u64>
    ensures { result ≡ named_by edit.now log }
{
    match *edit {
        Edit::LiveLog(file) => Some(file),
        _ => log,
    }
}

/// The live log that edits name last, else this one.
fn named_log(edits: &[Edit], log: Option<u64>) -> Option<u64>
    ensures { result ≡ named edits.now log }
{
    let mut last = log;
    'naming: for edit in edits {
        last = log_named(edit, last);
    }
    last
}

/// Adds a record.
fn add_record(alloc: Global, sum: &mut Sum, at: u64, edits: EditList) -> Result<(), Memory>
    ensures { OnOk result (sum.new ≡ one_more sum.old at edits) }
{
    apply_edits(alloc, &mut sum.live, edits.as_slice())?;
    sum.before = sum.log;
    sum.log = named_log(edits.as_slice(), sum.log);
    sum.last = edits;
    sum.at = Some(at);
    Ok(())
}

/// Adds the record of a body, or answers the place of its first offence.
fn add_body(alloc: Global, sum: &mut Sum, at: u64, body: &[u8]) -> Result<Option<u64>, Memory>
    requires { at + 5 + length body.now < 2 ^ 64 }
    ensures { IfOk result (λ o. state o sum.new ≡ step sum.old at body.now) }
{
    match read_edits(alloc, body) {
        Ok(edits) => {
            add_record(alloc, sum, at, edits)?;
            Ok(None)
        }
        Err(DefAnswer::Malformed(place)) => Ok(Some(at + RECORD_HEAD + place)),
        Err(DefAnswer::Memory) => Err(Memory),
    }
}

/// Goes on with a body, unless there was an offence before it.
pub(crate) fn go_on(
    alloc: Global,
    sum: &mut Sum,
    offence: Option<u64>,
    at: u64,
    body: &[u8],
) -> Result<Option<u64>, Memory>
    requires { at + 5 + length body.now < 2 ^ 64 }
    ensures { IfOk result (λ o. state o sum.new ≡ then_step offence sum.old at body.now) }
{
    match offence {
        Some(place) => Ok(Some(place)),
        None => add_body(alloc, sum, at, body),
    }
}

/// The place of the last record, where the rule on numbers doesn't hold behind it.
pub(crate) fn breach(sum: &Sum) -> Option<u64>
    ensures { result ≡ breach_of sum.now sum.now.at }
{
    match sum.at {
        Some(at) if !numbers_fit(&sum.live, sum.before, sum.last.as_slice()) => Some(at),
        _ => None,
    }
}
