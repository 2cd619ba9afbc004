//! How heavy changes are. Each sum stops at `PAST`, since all that is asked is whether it is above
//! the bound.

ghost use Rattle.std.specs.Prelude.{◌≡◌, ◌≤◌, ◌+◌, ◌*◌, ◌++◌, length, min, nat_lt, sum_by};
ghost use Rattle.mr_spec.specs.Rows.{rows_of};
ghost use Rattle.mr_spec.specs.Weight.{given_size as size_given, value_size as size_of_value, values_size as size_of_values, row_size as size_of_row, weight_of as weight_in, secondary_count as count_of_secondary, total_weight};

use crate::database::{table_name, table_of};
use mr_spec::Table;
use mr_types::{Change, Row, Value};

/// One more than the greatest weight that a commit may have.
const PAST: u64 = 67_108_865;

/// The sum, or `PAST` where it is greater.
fn sum_within(a: u64, b: u64) -> u64
    ensures { result ≡ min 67108865 (a + b) }
{
    a.saturating_add(b).min(PAST)
}

fn given_size(number: Option<u64>) -> u64
    ensures { result ≡ size_given number }
{
    match number {
        None => 0,
        Some(_) => 8,
    }
}

fn value_size(value: &Value) -> u64
    ensures { result ≡ min 67108865 (size_of_value value.now) }
{
    match value {
        Value::Null => 1,
        Value::Number(_) => 9,
        Value::Text(text) => sum_within(3, text.len() as u64),
        Value::Bytes(bytes) => sum_within(3, bytes.len() as u64),
    }
}

fn values_size(values: &[Value]) -> u64
    ensures { result ≡ min 67108865 (size_of_values values.now) }
{
    let mut size = 0;
    for value in values {
        size = sum_within(size, value_size(value));
    }
    size
}

fn row_size(row: &Row) -> u64
    ensures { result ≡ min 67108865 (size_of_row row.now) }
{
    let numbers = 2 + given_size(row.hidden) + given_size(row.stamp);
    sum_within(numbers, values_size(row.fields.as_slice()))
}

/// The forms of the old and the new row together.
fn forms_size(change: &Change) -> u64
    ensures { result ≡ min 67108865 (sum_by size_of_row (rows_of change.now)) }
{
    match change {
        Change::Insert { new, .. } => row_size(new),
        Change::Update { old, new, .. } => sum_within(row_size(old), row_size(new)),
        Change::Delete { old, .. } => row_size(old),
    }
}

/// The weight of a change in a table with so many secondary keys, `PAST` where it is greater.
fn weight_of(secondary: usize, change: &Change) -> u64
    ensures { result ≡ min 67108865 (weight_in secondary change.now) }
{
    let copies = secondary as u128 + 2;
    let weight = copies * (64 + forms_size(change) as u128);
    weight.min(PAST as u128) as u64
}

/// How many secondary keys the table of this name has.
fn secondary_count(tables: &[Table], name: &[u8]) -> usize
    ensures { result ≡ count_of_secondary tables.now name.now }
{
    match table_of(name, tables) {
        Some(table) => table.def.secondary.len(),
        None => 0,
    }
}

/// The weight of these changes and one of others before them, `PAST` where it is greater.
fn weight_behind(tables: &[Table], before: u64, changes: &[Change]) -> u64
    requires within { before ≤ 67108865 }
    ensures { result ≡ min 67108865 (before + total_weight tables.now changes.now) }
{
    let mut weight = before;
    for change in changes {
        let secondary = secondary_count(tables, table_name(change).as_slice());
        weight = sum_within(weight, weight_of(secondary, change));
    }
    weight
}

/// Whether these changes and more together weigh more than a commit may: 67,108,864.
#[tactic(auto, using(crate::proofs::Weighed::both))]
pub fn is_too_heavy(tables: &[Table], changes: &[Change], more: &[Change]) -> bool
    ensures { result ≡ nat_lt 67108864 (total_weight tables.now (changes.now ++ more.now)) }
{
    let weight = weight_behind(tables, weight_behind(tables, 0, changes), more);
    weight == PAST
}
