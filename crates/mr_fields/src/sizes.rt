//! How long the form of a row is, how heavy a change of rows is, and rows that are the same. A size
//! above 2^62 is told as 2^62.

ghost use Rattle.std.specs.Prelude.{◌≡◌, ◌≤◌, ◌+◌, ◌^◌, min, sum_by};
ghost use Rattle.mr_spec.specs.Rows.{rows_of};
ghost use Rattle.mr_spec.specs.Setting.{same_fields as have_same_fields};
ghost use Rattle.mr_spec.specs.Lawful.{is_equal_row as have_same_bytes};
ghost use Rattle.mr_spec.specs.Lawful.{same_number as is_same_number};
ghost use Rattle.mr_spec.specs.Weight.{given_size as size_given, value_size as size_of_value, values_size as size_of_values, row_size as size_of_row, weight_of as weight_in};

use mr_types::{Change, Row, Value};

/// The greatest size that is told.
const MOST: u64 = 4_611_686_018_427_387_904;

/// The sum, or `MOST` where it is greater.
fn sum_within(a: u64, b: u64) -> u64
    ensures { result ≡ min (2 ^ 62) (a + b) }
{
    a.saturating_add(b).min(MOST)
}

fn given_size(number: Option<u64>) -> u64
    ensures { result ≡ size_given number }
{
    match number {
        None => 0,
        Some(_) => 8,
    }
}

fn value_size(value: &Value) -> u64
    ensures { result ≡ min (2 ^ 62) (size_of_value value.now) }
{
    match value {
        Value::Null => 1,
        Value::Number(_) => 9,
        Value::Text(text) => sum_within(3, text.len() as u64),
        Value::Bytes(bytes) => sum_within(3, bytes.len() as u64),
    }
}

fn values_size(values: &[Value]) -> u64
    ensures { result ≡ min (2 ^ 62) (size_of_values values.now) }
{
    let mut size = 0;
    for value in values {
        size = sum_within(size, value_size(value));
    }
    size
}

/// How many bytes the row's form has, 2^62 where it has more.
pub fn row_size(row: &Row) -> u64
    ensures { result ≡ min (2 ^ 62) (size_of_row row.now) }
{
    let numbers = 2 + given_size(row.hidden) + given_size(row.stamp);
    sum_within(numbers, values_size(row.fields.as_slice()))
}

/// The forms of the old and the new row together.
fn forms_size(change: &Change) -> u64
    ensures { result ≡ min (2 ^ 62) (sum_by size_of_row (rows_of change.now)) }
{
    match change {
        Change::Insert { new, .. } => row_size(new),
        Change::Update { old, new, .. } => sum_within(row_size(old), row_size(new)),
        Change::Delete { old, .. } => row_size(old),
    }
}

/// The weight of a change in a table with so many secondary keys, 2^62 where it is greater: 64 bytes
/// and its rows' forms, twice and once a secondary key.
pub fn change_weight(secondary: usize, change: &Change) -> u64
    ensures { result ≡ min (2 ^ 62) (weight_in secondary change.now) }
{
    let copies = secondary as u128 + 2;
    let weight = copies * (64 + forms_size(change) as u128);
    weight.min(MOST as u128) as u64
}

fn same_number(a: Option<u64>, b: Option<u64>) -> bool
    ensures { result ≡ is_same_number a b }
{
    match (a, b) {
        (None, None) => true,
        (Some(m), Some(n)) => m == n,
        _ => false,
    }
}

/// Whether the values are the same byte for byte, as far as both lists go.
fn same_fields(old: &[Value], new: &[Value]) -> bool
    ensures { result ≡ have_same_fields old.now new.now }
{
    for (i, value) in old.iter().enumerate() {
        match new.get(i) {
            Some(other) => {
                if !value.is_equal(other) {
                    return false;
                }
            }
            None => return true,
        }
    }
    true
}

/// Whether two rows are the same, byte for byte: hidden number, stamp and each value, with letter
/// case and the spaces at the end of texts.
pub fn is_equal_row(a: &Row, b: &Row) -> bool
    ensures { result ≡ have_same_bytes a.now b.now }
{
    same_number(a.hidden, b.hidden)
        && same_number(a.stamp, b.stamp)
        && a.fields.len() == b.fields.len()
        && same_fields(a.fields.as_slice(), b.fields.as_slice())
}
