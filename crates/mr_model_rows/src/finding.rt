//! Rows found by their primary key, among rows that ascend by it.

ghost use Rattle.std.specs.Prelude.{◌≡◌, ◌<◌, length, get_or, MatchResult};
ghost use Rattle.std.specs.Ordering.{is_gt as is_greater};
ghost use Rattle.mr_orders.specs.Orders.{IsAscending};
ghost use Rattle.mr_spec.specs.Rows.{primary_cmp as primary_order};
ghost use Rattle.mr_model_rows.specs.Searching.{lower, IsThere, IsAbsent};

use crate::rows::{primary_cmp, same_primary};
use mr_types::{Row, TableDef};

/// Whether a row comes before the key of this one.
fn is_before(def: &TableDef, key: &Row, rows: &[Row], at: usize) -> bool
    requires { at < length rows.now }
    ensures { result ≡ is_greater (primary_order def.now key.now (get_or rows.now at key.now)) }
{
    primary_cmp(def, key, &rows[at]).is_gt()
}

/// How many rows come before the key of this one.
#[tactic(auto, using(crate::proofs::Searching::lower_at))]
fn place_of_key(def: &TableDef, key: &Row, rows: &[Row]) -> usize
    requires rising { IsAscending def.now rows.now }
    ensures { result ≡ lower def.now key.now rows.now }
{
    let mut low = 0;
    let mut high = rows.len();
    'halving: while low < high {
        let middle = low + (high - low) / 2;
        if is_before(def, key, rows, middle) {
            low = middle + 1;
        } else {
            high = middle;
        }
    }
    low
}

/// The place of the row with the key of this one, or else the place where it belongs.
pub fn search(def: &TableDef, key: &Row, rows: &[Row]) -> Result<usize, usize>
    requires rising { IsAscending def.now rows.now }
    ensures { MatchResult result (IsThere def.now key.now rows.now) (IsAbsent def.now key.now rows.now) }
{
    let at = place_of_key(def, key, rows);
    if at < rows.len() && same_primary(def, key, &rows[at]) {
        return Ok(at);
    }
    Err(at)
}
