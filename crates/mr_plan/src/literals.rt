//! Literals, and where they stand among the values of a column.

ghost use Rattle.std.specs.Prelude.{◌≡◌, ◌++◌, IfOk, Some, slice_get, true};
ghost use Rattle.mr_types.specs.Values.{is_null as null_test};
ghost use Rattle.mr_spec.specs.Truth.{meets as met};
ghost use Rattle.mr_memcmp.specs.Fitting.{FitsColumn};
ghost use Rattle.mr_plan.specs.Tests.{fits_column, side_of_number as number_side, side_of as value_side, value_from as from_value, holds_bytes as has_bytes};

use mr_base::{Blob, Memory};
use mr_memcmp::{encode_parts, fits};
use mr_types::{Cmp, ColumnDef, ColumnType, Kind, TableDef, Value};
use std::alloc::Global;
use std::cmp::Ordering;
use std::slice;

pub(crate) fn is_null(value: &Value) -> bool
    ensures { result ≡ null_test value.now }
{
    match value {
        Value::Null => true,
        Value::Number(_) | Value::Text(_) | Value::Bytes(_) => false,
    }
}

/// Whether a value has bytes in the column.
#[tactic(auto, using(crate::proofs::Fits::fits_by))]
pub(crate) fn is_fitting(column: ColumnType, value: &Value) -> bool
    ensures { result ≡ fits_column column value.now }
{
    fits(column, value)
}

pub(crate) fn meets(cmp: Cmp, order: Ordering) -> bool
    ensures { result ≡ met cmp order }
{
    match cmp {
        Cmp::Eq => order.is_eq(),
        Cmp::Ne => order.is_ne(),
        Cmp::Lt => order.is_lt(),
        Cmp::Le => order.is_le(),
        Cmp::Gt => order.is_gt(),
        Cmp::Ge => order.is_ge(),
    }
}

/// Each number of the kind against one that is outside its range; texts and bytes come behind
/// numbers.
fn side_of_number(kind: Kind, number: i128) -> Ordering
    ensures { result ≡ number_side kind number }
{
    match kind {
        Kind::VarChar(..) | Kind::VarBinary(_) => Ordering::Greater,
        _ => {
            if number >= 0 {
                Ordering::Less
            } else {
                Ordering::Greater
            }
        }
    }
}

fn holds_bytes(kind: Kind) -> bool
    ensures { result ≡ has_bytes kind }
{
    match kind {
        Kind::VarBinary(_) => true,
        _ => false,
    }
}

/// Each value of the kind but NULL against a literal that has no bytes in such a column.
pub(crate) fn side_of(kind: Kind, value: &Value) -> Ordering
    ensures { result ≡ value_side kind value.now }
{
    match value {
        Value::Null => Ordering::Less,
        Value::Number(number) => side_of_number(kind, *number),
        Value::Text(_) => {
            if holds_bytes(kind) {
                Ordering::Greater
            } else {
                Ordering::Less
            }
        }
        Value::Bytes(_) => Ordering::Less,
    }
}

/// The bytes in front, and those of a value of the column behind them.
pub(crate) fn value_from(
    alloc: Global,
    def: &TableDef,
    place: u8,
    column: &ColumnDef,
    front: &[u8],
    value: &Value,
) -> Result<Blob, Memory>
    requires here { slice_get def.now.columns place ≡ Some column.now }
    requires fits { fits_column column.now.ty value.now ≡ true }
    ensures { IfOk result (λ bytes. bytes ≡ from_value front.now column.now.ty value.now) }
{
    let bytes = encode_parts(alloc, None, def, &[place], slice::from_ref(value))?;
    let mut out = Vec::from_slice(alloc, front)?;
    out.extend_from_slice(bytes.as_slice())?;
    Ok(Blob::from_vec(out))
}
