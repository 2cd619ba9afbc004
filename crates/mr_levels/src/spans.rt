//! The live runs as a choice of runs is given them.
ghost use Rattle.std.specs.Prelude.{◌≡◌, ◌≤◌, ◌++◌, length, map, IfOk, OnOk};
ghost use Rattle.mr_levels.specs.Spans.{span_at, spans_at, spans_from};

use mr_base::{Blob, Memory};
use mr_compact::{Span, SpanList};
use mr_run_open::Run;
use std::alloc::Global;

fn span_of(alloc: Global, level: u8, run: &Run) -> Result<Span, Memory>
    ensures { IfOk result (λ s. s ≡ span_at level run.now) }
{
    let first = Blob::from_slice(alloc, run.first_key())?;
    let last = Blob::from_slice(alloc, run.last_key())?;
    Ok(Span {
        level,
        info: run.info(),
        first,
        last,
    })
}

/// The runs of one level, behind the others. Takes memory.
pub fn add_spans(alloc: Global, spans: &mut SpanList, level: u8, runs: &[Run]) -> Result<(), Memory>
    ensures { OnOk result (spans.new ≡ spans.old ++ spans_at level runs.now) }
{
    'listing: for i in 0..runs.len() {
        let span = span_of(alloc, level, &runs[i])?;
        match spans.push(span) {
            Ok(()) => {}
            Err(_) => return Err(Memory),
        }
    }
    Ok(())
}

/// Those of the levels from one on. Takes memory.
pub fn add_deeper_spans(
    alloc: Global,
    spans: &mut SpanList,
    levels: &[Vec<Run>],
) -> Result<(), Memory>
    requires { length levels.now ≤ 4 }
    ensures { OnOk result (spans.new ≡ spans.old ++ spans_from 1 (map (λ rs. rs.items) levels.now)) }
{
    let mut level = 1u8;
    'listing: for i in 0..levels.len() {
        add_spans(alloc, spans, level, &levels[i])?;
        level += 1;
    }
    Ok(())
}
