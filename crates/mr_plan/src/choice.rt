//! The choice of an index.

ghost use Rattle.std.specs.Prelude.{◌≡◌, ◌+◌, ◌*◌, ◌≤◌, if◌then◌else◌, IfOk, is_some, length, nat_lt};
ghost use Rattle.std.specs.Option.{option_copied};
ghost use Rattle.mr_plan.specs.Columns.{fixed as fixed_by};
ghost use Rattle.mr_plan.specs.Choice.{is_covering as does_cover, fixed_count as counted, narrows_first as first_narrows, score as scored, best_from, fixes_all as all_fixed, chosen as choice_of};

use crate::columns::{fixed, narrows};
use mr_base::Memory;
use mr_entry::{covers, places_of};
use mr_spec::Bound;
use mr_types::TableDef;
use std::alloc::Global;

/// Whether the entries of the index hold each needed column.
pub(crate) fn is_covering(def: &TableDef, index: usize, needed: u64) -> bool
    ensures { result ≡ does_cover def.now index needed }
{
    covers(def, index, needed)
}

fn is_fixed(expr: Option<&Bound>, place: u8) -> bool
    ensures { result ≡ is_some (fixed_by place (option_copied expr.entry)) }
{
    match fixed(expr, place) {
        None => false,
        Some(_) => true,
    }
}

/// How many of the first columns are fixed by `=`.
fn fixed_count(expr: Option<&Bound>, places: &[u8]) -> usize
    ensures is { result ≡ counted (option_copied expr.entry) places.now }
    ensures within { result ≤ length places.now }
{
    let mut count = 0;
    for place in places {
        if !is_fixed(expr, *place) {
            return count;
        }
        count += 1;
    }
    count
}

fn narrows_first(expr: Option<&Bound>, places: &[u8]) -> bool
    ensures { result ≡ first_narrows (option_copied expr.entry) places.now }
{
    match places {
        [] => false,
        [first, ..] => narrows(expr, *first),
    }
}

/// How well an index with these columns serves: 0 where the condition says nothing of the first
/// one; else the more of them are fixed, and then where the index covers.
fn score_of(expr: Option<&Bound>, places: &[u8], covers: bool) -> u128
    ensures { result ≡ (if first_narrows (option_copied expr.entry) places.now then 1 + 2 * counted (option_copied expr.entry) places.now + (if covers then 1 else 0) else 0) }
{
    if !narrows_first(expr, places) {
        return 0;
    }
    let count = fixed_count(expr, places) as u128;
    if covers {
        1 + 2 * count + 1
    } else {
        1 + 2 * count
    }
}

fn score(
    alloc: Global,
    def: &TableDef,
    expr: Option<&Bound>,
    needed: u64,
    index: usize,
) -> Result<u128, Memory>
    ensures { IfOk result (λ score. score ≡ scored def.now (option_copied expr.entry) needed index) }
{
    let places = places_of(alloc, def, index)?;
    Ok(score_of(expr, places.as_slice(), is_covering(def, index, needed)))
}

/// The index of the greater score, the first one where they are the same.
fn better(best: usize, most: u128, other: usize, score: u128) -> usize
    ensures { result ≡ (if nat_lt most score then other else best) }
{
    if most < score { other } else { best }
}

/// The first of the indexes that serve best.
fn best(alloc: Global, def: &TableDef, expr: Option<&Bound>, needed: u64) -> Result<usize, Memory>
    ensures { IfOk result (λ best. best ≡ best_from def.now (option_copied expr.entry) needed 1 def.now.secondary 0) }
{
    let mut best = 0;
    for at in 0..def.secondary.len() {
        let most = score(alloc, def, expr, needed, best)?;
        let next = score(alloc, def, expr, needed, at + 1)?;
        best = better(best, most, at + 1, next);
    }
    Ok(best)
}

/// Whether each column of a primary key that isn't hidden is fixed by `=`.
fn fixes_all(expr: Option<&Bound>, places: &[u8]) -> bool
    ensures { result ≡ all_fixed (option_copied expr.entry) places.now }
{
    if places.is_empty() {
        return false;
    }
    for place in places {
        if !is_fixed(expr, *place) {
            return false;
        }
    }
    true
}

/// The index: a forced one; else the primary key where the condition fixes each of its columns; else
/// the one of which it fixes the most columns, and of these one that covers.
pub(crate) fn chosen(
    alloc: Global,
    def: &TableDef,
    expr: Option<&Bound>,
    needed: u64,
    forced: Option<usize>,
) -> Result<usize, Memory>
    ensures { IfOk result (λ index. index ≡ choice_of def.now (option_copied expr.entry) needed forced) }
{
    if let Some(index) = forced {
        return Ok(index);
    }
    if fixes_all(expr, def.primary.columns.as_slice()) {
        return Ok(0);
    }
    best(alloc, def, expr, needed)
}
