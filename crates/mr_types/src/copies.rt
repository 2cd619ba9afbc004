//! Copies of lists.

ghost use Rattle.std.specs.Prelude.{◌≡◌, IfOk};

use crate::definition::{ColumnList, IndexList};
use crate::value::{Value, ValueList};
use mr_base::Memory;
use sqlite_items::Items;
use std::alloc::Global;

pub fn copy_default(alloc: Global, default: &Option<Value>) -> Result<Option<Value>, Memory>
    ensures { IfOk result (λ d. d ≡ default.now) }
{
    match default {
        None => Ok(None),
        Some(value) => Ok(Some(value.copy(alloc)?)),
    }
}

/// A copy of these columns.
pub fn copy_columns(alloc: Global, columns: &ColumnList) -> Result<ColumnList, Memory>
    ensures { IfOk result (λ copy. copy ≡ columns.now) }
{
    let mut copied = Items::new(alloc);
    for column in columns.as_slice() {
        copied.push(column.copy(alloc)?)?;
    }
    Ok(copied)
}

/// A copy of these keys.
pub fn copy_keys(alloc: Global, keys: &IndexList) -> Result<IndexList, Memory>
    ensures { IfOk result (λ copy. copy ≡ keys.now) }
{
    let mut copied = Items::new(alloc);
    for key in keys.as_slice() {
        copied.push(key.copy(alloc)?)?;
    }
    Ok(copied)
}

/// A copy of these values.
pub fn copy_values(alloc: Global, values: &ValueList) -> Result<ValueList, Memory>
    ensures { IfOk result (λ copy. copy ≡ values.now) }
{
    let mut copied = Items::new(alloc);
    for value in values.as_slice() {
        copied.push(value.copy(alloc)?)?;
    }
    Ok(copied)
}
