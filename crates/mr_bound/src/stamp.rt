//! The stamp of a row with new fields.

ghost use Rattle.std.specs.Prelude.{◌≡◌, unwrap_or, slice_get};
ghost use Rattle.mr_types.specs.declared.value.Value.TheVariants.{Null};
ghost use Rattle.mr_bound.specs.Stamps.{number_within, stamp_within};

use mr_types::{Ttl, Value};

/// A number from 0 on. The kinds of TTL columns have none of more than 64 bits; one of more counts
/// as the greatest.
fn number_in(value: &Value) -> u64
    ensures { result ≡ number_within value.now }
{
    match value {
        Value::Number(number) => {
            if *number < 0 {
                return 0;
            }
            match u64::try_from(*number) {
                Ok(number) => number,
                Err(_) => u64::MAX,
            }
        }
        _ => 0,
    }
}

/// The number from 0 on in the field at a place.
fn number_at(fields: &[Value], at: usize) -> u64
    ensures { result ≡ number_within (unwrap_or (slice_get fields.now at) Null) }
{
    match fields.get(at) {
        Some(value) => number_in(value),
        None => 0,
    }
}

/// The stamp of a row with these fields: that of the TTL column, or else the one given.
pub(crate) fn stamp_for(ttl: Option<Ttl>, given: u64, fields: &[Value]) -> Option<u64>
    ensures { result ≡ stamp_within ttl given fields.now }
{
    match ttl {
        None => None,
        Some(ttl) => match ttl.column {
            None => Some(given),
            Some(column) => Some(number_at(fields, column as usize)),
        },
    }
}
