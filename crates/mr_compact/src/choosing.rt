//! The choice of the runs that are merged next.
ghost use Rattle.std.specs.Prelude.{◌≡◌, ◌<◌, ◌≤◌, ◌+◌, ◌++◌, length, [], ◌∷◌, IfOk, if◌then◌else◌};
ghost use Rattle.mr_compact.specs.Levels.{count_at as counted, bytes_at as bytes, older, oldest as oldest_of, source as source_of, going as going_of, at_level, files_of, overlaps_span, overlaps_any, is_bottom as bottom_is, pick_from as pick_of, picked, touched};
ghost use Rattle.mr_compact.specs.Passes.{ends_behind as ends, begins_before as begins, overlaps_level as level_overlaps, overlaps_touched as touched_overlaps, files_at as level_files, files_touched as touched_files};

use crate::span::{FileList, Pick, Span, SpanList, comes_before};
use mr_base::Memory;
use sqlite_items::Items;
use std::alloc::Global;

/// So many newest runs are merged at any time.
const MANY: usize = 8;

/// How many runs a level has.
fn count_at(spans: &[Span], level: u8) -> usize
    ensures counted { result ≡ counted level spans.now }
    ensures within { result ≤ length spans.now }
{
    let mut count = 0;
    'counting: for span in spans {
        if span.level == level {
            count += 1;
        }
    }
    count
}

/// How many bytes the runs of a level have.
fn bytes_at(spans: &[Span], level: u8) -> u128
    ensures { result ≡ bytes level spans.now }
{
    let mut sum: u128 = 0;
    'adding: for span in spans {
        if span.level == level {
            sum += span.info.length as u128;
        }
    }
    sum
}

/// The level whose runs go down.
fn source(spans: &[Span], memtable: u64, eager: bool) -> Option<u8>
    ensures { result ≡ source_of eager memtable spans.now }
{
    let newest = count_at(spans, 0);
    if newest >= MANY || (eager && newest > 0) {
        return Some(0);
    }
    let memtable = memtable as u128;
    if bytes_at(spans, 1) > memtable * 10 {
        return Some(1);
    }
    if bytes_at(spans, 2) > memtable * 100 {
        return Some(2);
    }
    if bytes_at(spans, 3) > memtable * 1000 {
        return Some(3);
    }
    None
}

/// Whether a run has a lesser file number than the best one so far.
fn is_older(best: &[Span], span: &Span) -> bool
    ensures { older best.now span.now ≡ (if result then span.now ∷ [] else best.now) }
{
    match best {
        [] => true,
        [first, ..] => span.info.file < first.info.file,
    }
}

/// The run of a level of the least file number.
fn oldest(spans: &[Span], level: u8) -> &[Span]
    ensures { result.now ≡ oldest_of level spans.now }
{
    let mut best: &[Span] = &[];
    'looking: for i in 0..spans.len() {
        if spans[i].level == level && is_older(best, &spans[i]) {
            best = &spans[i..i + 1];
        }
    }
    best
}

/// Runs of which those of the level go down.
fn going(spans: &[Span], level: u8) -> &[Span]
    ensures { at_level level result.now ≡ going_of level spans.now }
{
    if level == 0 {
        return spans;
    }
    oldest(spans, level)
}

/// Whether a run of the level ends at or behind a key.
fn ends_behind(runs: &[Span], level: u8, key: &[u8]) -> bool
    ensures { result ≡ ends level key.now runs.now }
{
    'looking: for run in runs {
        if run.level == level && !comes_before(run.greatest(), key) {
            return true;
        }
    }
    false
}

/// Whether a run of the level begins at or before a key.
fn begins_before(runs: &[Span], level: u8, key: &[u8]) -> bool
    ensures { result ≡ begins level key.now runs.now }
{
    'looking: for run in runs {
        if run.level == level && !comes_before(key, run.least()) {
            return true;
        }
    }
    false
}

/// Whether a run overlaps the span of all keys of a level.
fn overlaps_all(runs: &[Span], level: u8, span: &Span) -> bool
    ensures { result ≡ overlaps_span (at_level level runs.now) span.now }
{
    ends_behind(runs, level, span.least()) && begins_before(runs, level, span.greatest())
}

/// Whether a run overlaps one of a level.
fn overlaps_level(runs: &[Span], level: u8, span: &Span) -> bool
    ensures { result ≡ level_overlaps level span.now runs.now }
{
    'looking: for run in runs {
        if run.level == level && run.overlaps(span) {
            return true;
        }
    }
    false
}

/// Whether a run overlaps one of the next level that goes along.
fn overlaps_touched(spans: &[Span], level: u8, part: &[Span], span: &Span) -> bool
    requires { level < 4 }
    ensures { result ≡ touched_overlaps (at_level level part.now) (level + 1) span.now spans.now }
{
    'looking: for run in spans {
        if run.level == level + 1 && run.overlaps(span) && overlaps_all(part, level, run) {
            return true;
        }
    }
    false
}

/// Whether a run overlaps one that is merged.
fn overlaps_merged(spans: &[Span], level: u8, part: &[Span], span: &Span) -> bool
    requires { level < 4 }
    ensures { result ≡ overlaps_any (at_level level part.now ++ touched (at_level level part.now) (level + 1) spans.now) span.now }
{
    overlaps_level(part, level, span) || overlaps_touched(spans, level, part, span)
}

/// Whether no level below the next has a run that overlaps one that is merged.
fn is_bottom(spans: &[Span], level: u8, part: &[Span]) -> bool
    requires { level < 4 }
    ensures { result ≡ bottom_is (level + 1) (at_level level part.now ++ touched (at_level level part.now) (level + 1) spans.now) spans.now }
{
    'looking: for span in spans {
        if span.level > level + 1 && overlaps_merged(spans, level, part, span) {
            return false;
        }
    }
    true
}

/// The files of a level.
fn files_at(alloc: Global, runs: &[Span], level: u8) -> Result<FileList, Memory>
    ensures { IfOk result (λ files. files ≡ level_files level runs.now) }
{
    let mut files = Items::new(alloc);
    'listing: for run in runs {
        if run.level == level {
            files.push(run.info.file)?;
        }
    }
    Ok(files)
}

/// The files of the next level that go along.
fn files_touched(
    alloc: Global,
    spans: &[Span],
    level: u8,
    part: &[Span],
) -> Result<FileList, Memory>
    requires { level < 4 }
    ensures { IfOk result (λ files. files ≡ touched_files (at_level level part.now) (level + 1) spans.now) }
{
    let mut files = Items::new(alloc);
    'listing: for span in spans {
        if span.level == level + 1 && overlaps_all(part, level, span) {
            files.push(span.info.file)?;
        }
    }
    Ok(files)
}

/// The files of the runs that are merged.
#[tactic(auto, using(crate::proofs::Choice::files_parts))]
fn files_merged(alloc: Global, spans: &[Span], level: u8, part: &[Span]) -> Result<FileList, Memory>
    requires { level < 4 }
    ensures { IfOk result (λ files. files ≡ files_of (at_level level part.now ++ touched (at_level level part.now) (level + 1) spans.now)) }
{
    let mut files = files_at(alloc, part, level)?;
    let more = files_touched(alloc, spans, level, part)?;
    files.append(more)?;
    Ok(files)
}

/// The choice where runs of this level go down.
#[tactic(auto, using(crate::proofs::Choice::pick_parts))]
fn pick_from(alloc: Global, spans: &[Span], level: u8) -> Result<Pick, Memory>
    requires { level < 4 }
    ensures { IfOk result (λ pick. pick ≡ pick_of level spans.now) }
{
    let part = going(spans, level);
    let files = files_merged(alloc, spans, level, part)?;
    let bottom = is_bottom(spans, level, part);
    Ok(Pick {
        level: level + 1,
        files,
        bottom,
    })
}

/// The runs of a family that are merged next; None where no level needs it. `memtable` is the memtable's limit in bytes; where
/// `eager`, one newest run is enough. Takes memory.
pub fn pick(
    alloc: Global,
    spans: &SpanList,
    memtable: u64,
    eager: bool,
) -> Result<Option<Pick>, Memory>
    ensures { IfOk result (λ pick. pick ≡ picked eager memtable spans.now) }
{
    match source(spans.as_slice(), memtable, eager) {
        Some(level) => {
            let pick = pick_from(alloc, spans.as_slice(), level)?;
            Ok(Some(pick))
        }
        None => Ok(None),
    }
}
