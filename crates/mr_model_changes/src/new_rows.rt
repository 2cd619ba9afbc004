//! The hidden number and the stamp of a row.

ghost use Rattle.std.specs.Prelude.{◌≡◌, ◌+◌, if◌then◌else◌, unwrap_or, IfOk, slice_get};
ghost use Rattle.mr_types.specs.declared.value.Value.TheVariants.{Null};
ghost use Rattle.mr_model_changes.specs.Telling.{scene_in};
ghost use Rattle.mr_spec.specs.NewRows.{has_hidden_key as is_hidden_key, hidden_for as hidden_of, number_in as number_of, stamp_for as stamp_of, new_row as row_of};

use crate::scene::Scene;
use mr_base::Memory;
use mr_types::{Row, TableDef, Ttl, Value, ValueList};

/// Whether the table has no primary key.
fn has_hidden_key(def: &TableDef) -> bool
    ensures { result ≡ is_hidden_key def.now }
{
    def.primary.columns.len() == 0
}

fn hidden_for(def: &TableDef, next: u64) -> Option<u64>
    ensures { result ≡ hidden_of def.now next }
{
    if has_hidden_key(def) {
        Some(next)
    } else {
        None
    }
}

/// The next hidden number behind one that a row has drawn, where the table has hidden ones. Behind
/// the last number of 64 bits there is none: want of memory stands for that.
pub(crate) fn next_behind(def: &TableDef, next: u64) -> Result<u64, Memory>
    ensures { IfOk result (λ n. n ≡ (if is_hidden_key def.now then next + 1 else next)) }
{
    if !has_hidden_key(def) {
        return Ok(next);
    }
    match next.checked_add(1) {
        Some(behind) => Ok(behind),
        None => Err(Memory),
    }
}

/// A number from 0 on. The kinds of TTL columns have none of more than 64 bits: want of memory
/// stands for that.
fn number_in(value: &Value) -> Result<u64, Memory>
    ensures { IfOk result (λ n. n ≡ number_of value.now) }
{
    match value {
        Value::Number(number) => {
            if *number < 0 {
                return Ok(0);
            }
            match u64::try_from(*number) {
                Ok(number) => Ok(number),
                Err(_) => Err(Memory),
            }
        }
        _ => Ok(0),
    }
}

/// The number from 0 on in the field at a place.
fn number_at(fields: &[Value], at: usize) -> Result<u64, Memory>
    ensures { IfOk result (λ n. n ≡ number_of (unwrap_or (slice_get fields.now at) Null)) }
{
    match fields.get(at) {
        Some(value) => number_in(value),
        None => Ok(0),
    }
}

/// The stamp of a row with these fields: that of the TTL column, or else the one given.
pub(crate) fn stamp_for(
    ttl: Option<Ttl>,
    given: u64,
    fields: &[Value],
) -> Result<Option<u64>, Memory>
    ensures { IfOk result (λ stamp. stamp ≡ stamp_of ttl given fields.now) }
{
    match ttl {
        None => Ok(None),
        Some(ttl) => match ttl.column {
            None => Ok(Some(given)),
            Some(column) => Ok(Some(number_at(fields, column as usize)?)),
        },
    }
}

/// A new row with these fields.
pub(crate) fn new_row(scene: &Scene, next: u64, fields: ValueList) -> Result<Row, Memory>
    ensures { IfOk result (λ row. row ≡ row_of (scene_in scene.now) next fields) }
{
    let stamp = stamp_for(scene.def.ttl, scene.moment, fields.as_slice())?;
    Ok(Row {
        hidden: hidden_for(scene.def, next),
        stamp,
        fields,
    })
}
