//! Keys from rows.

ghost use Rattle.std.specs.Prelude.{◌≡◌, ◌++◌, IfOk, OnOk, slice_get};
ghost use Rattle.mr_types.specs.Rows.{IsRowOf};
ghost use Rattle.mr_memcmp.specs.Fitting.{FitsPart, AllFit};
ghost use Rattle.mr_memcmp.specs.Keys.{columns_bytes, key_bytes_of, hidden_bytes, part_bytes, parts_bytes};

use crate::column::{push_column, push_u32, push_u64};
use mr_base::{Blob, Memory};
use mr_types::{ColumnDef, Row, TableDef, Value};
use std::alloc::{AllocError, Global};

/// Adds the column at a place, if there is one.
fn push_part(
    out: &mut Vec<u8>,
    columns: &[ColumnDef],
    values: &[Value],
    at: usize,
) -> Result<(), AllocError>
    requires { FitsPart (slice_get columns.now at) (slice_get values.now at) }
    ensures { OnOk result (out.new.items ≡ out.old.items ++ part_bytes (slice_get columns.now at) (slice_get values.now at)) }
{
    match columns.get(at) {
        None => Ok(()),
        Some(column) => match values.get(at) {
            None => Ok(()),
            Some(value) => push_column(out, column.ty, value),
        },
    }
}

fn push_parts(
    out: &mut Vec<u8>,
    columns: &[ColumnDef],
    values: &[Value],
    places: &[u8],
) -> Result<(), AllocError>
    requires { AllFit columns.now values.now places.now }
    ensures { OnOk result (out.new.items ≡ out.old.items ++ parts_bytes columns.now values.now places.now) }
{
    for at in places {
        push_part(out, columns, values, *at as usize)?;
    }
    Ok(())
}

fn push_hidden(out: &mut Vec<u8>, hidden: Option<u64>) -> Result<(), AllocError>
    ensures { OnOk result (out.new.items ≡ out.old.items ++ hidden_bytes hidden) }
{
    match hidden {
        None => Ok(()),
        Some(number) => push_u64(out, number),
    }
}

/// Room for the pieces of a text or of bytes, and the byte in front of them.
fn room_of_pieces(bytes: &Blob) -> usize {
    (bytes.len() / 8).saturating_mul(9).saturating_add(10)
}

/// Room for the bytes of a value in a column, whatever its kind.
fn room_of(value: &Value) -> usize {
    match value {
        Value::Null => 1,
        Value::Number(_) => 9,
        Value::Text(text) => room_of_pieces(text),
        Value::Bytes(bytes) => room_of_pieces(bytes),
    }
}

/// Room for a key, so that it takes memory once.
fn room_for(values: &[Value], places: &[u8]) -> usize {
    let mut room: usize = 12;
    for at in places {
        if let Some(value) = values.get(*at as usize) {
            room = room.saturating_add(room_of(value));
        }
    }
    room
}

/// The index number and the columns, with room for a hidden number.
fn columns_of(
    alloc: Global,
    index: u32,
    def: &TableDef,
    columns: &[u8],
    row: &Row,
) -> Result<Vec<u8>, AllocError>
    requires { AllFit def.now.columns row.now.fields columns.now }
    ensures { IfOk result (λ out. out.items ≡ columns_bytes index def.now columns.now row.now) }
{
    let mut out = Vec::with_capacity(alloc, room_for(row.fields.as_slice(), columns))?;
    push_u32(&mut out, index)?;
    push_parts(
        &mut out,
        def.columns.as_slice(),
        row.fields.as_slice(),
        columns,
    )?;
    Ok(out)
}

/// The index number and the columns at these places, without a hidden number: what is claimed,
/// what unique tests look for, and where ranges begin and end. The places are the key's whole list
/// or a front of it; only the values of these columns are looked at.
pub fn encode_columns(
    alloc: Global,
    index: u32,
    def: &TableDef,
    columns: &[u8],
    row: &Row,
) -> Result<Blob, Memory>
    requires { AllFit def.now.columns row.now.fields columns.now }
    ensures { IfOk result (λ key. key ≡ columns_bytes index def.now columns.now row.now) }
{
    Ok(Blob::from_vec(columns_of(alloc, index, def, columns, row)?))
}

/// The key of a row in an index: the index number, the columns at these places, which are the
/// key's whole list or a front of it, and the hidden number where the table has one.
pub fn encode_key(
    alloc: Global,
    index: u32,
    def: &TableDef,
    columns: &[u8],
    row: &Row,
) -> Result<Blob, Memory>
    requires { IsRowOf def.now row.now }
    ensures { IfOk result (λ key. key ≡ key_bytes_of index def.now columns.now row.now) }
{
    let mut out = columns_of(alloc, index, def, columns, row)?;
    push_hidden(&mut out, row.hidden)?;
    Ok(Blob::from_vec(out))
}
