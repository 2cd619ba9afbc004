//! Given values of an index's first columns: where ranges begin and end.

ghost use Rattle.std.specs.Prelude.{◌≡◌, ◌++◌, ◌<◌, ◌^◌, ◌+◌, [], IfOk, OnOk, ℕ, List, Option, Some, take, slice_get, true, false};
ghost use Rattle.mr_types.specs.Values.{length_of_kind};
ghost use Rattle.mr_types.specs.declared.definition.TableDef.{TableDef};
ghost use Rattle.mr_types.specs.declared.row.Row.{Row};
ghost use Rattle.mr_types.specs.declared.value.Value.{Value};
ghost use Rattle.mr_types.specs.Rows.{IsRowOf};
ghost use Rattle.mr_memcmp.specs.ComeBack.{AreBytes};
ghost use Rattle.mr_memcmp.specs.Fitting.{FitsPart, FitsColumn, IsNumber};
ghost use Rattle.mr_memcmp.specs.Parts.{first_no_space, cut_text, cut, given_part, given_parts, given_bytes, behind_number, row_key, AllGiven, PartsInRange};

use crate::column::{push_column, push_u32};
use mr_base::{Blob, Memory};
use mr_types::{ColumnDef, ColumnType, Kind, TableDef, Value};
use std::alloc::{AllocError, Global};

fn length_of(kind: Kind) -> usize
    ensures { result ≡ length_of_kind kind }
{
    match kind {
        Kind::VarChar(width, _) => width as usize,
        Kind::VarBinary(width) => width as usize,
        _ => 0,
    }
}

fn first_no_space(text: &[u8]) -> Option<u8>
    ensures { result ≡ first_no_space text.now }
{
    for byte in text {
        if *byte != 32 {
            return Some(*byte);
        }
    }
    None
}

/// What can matter of a text in a column of so many bytes.
fn cut_text(alloc: Global, width: usize, text: &[u8]) -> Result<Vec<u8>, AllocError>
    ensures { IfOk result (λ out. out.items ≡ cut_text width text.now) }
{
    let (front, rest) = text.split_at(width.min(text.len()));
    let mut out = Vec::from_slice(alloc, front)?;
    if let Some(byte) = first_no_space(rest) {
        out.push(byte)?;
    }
    Ok(out)
}

/// What can matter of bytes in a column of so many.
fn cut_bytes(alloc: Global, width: usize, bytes: &[u8]) -> Result<Vec<u8>, AllocError>
    requires { width < 2 ^ 32 }
    ensures { IfOk result (λ out. out.items ≡ take (1 + width) bytes.now) }
{
    let (front, _) = bytes.split_at((width + 1).min(bytes.len()));
    Vec::from_slice(alloc, front)
}

/// A copy of what can matter of a value.
fn cut(alloc: Global, kind: Kind, value: &Value) -> Result<Value, Memory>
    ensures { IfOk result (λ out. out ≡ cut kind value.now) }
{
    match value {
        Value::Null => Ok(Value::Null),
        Value::Number(number) => Ok(Value::Number(*number)),
        Value::Text(text) => {
            let text = cut_text(alloc, length_of(kind), text.as_slice())?;
            Ok(Value::Text(Blob::from_vec(text)))
        }
        Value::Bytes(bytes) => {
            let bytes = cut_bytes(alloc, length_of(kind), bytes.as_slice())?;
            Ok(Value::Bytes(Blob::from_vec(bytes)))
        }
    }
}

fn push_given(
    alloc: Global,
    out: &mut Vec<u8>,
    columns: &[ColumnDef],
    place: usize,
    value: &Value,
) -> Result<(), Memory>
    requires { FitsPart (slice_get columns.now place) (Some value.now) }
    ensures { OnOk result (out.new.items ≡ out.old.items ++ given_part (slice_get columns.now place) value.now) }
{
    match columns.get(place) {
        None => Ok(()),
        Some(column) => {
            let value = cut(alloc, column.ty.kind, value)?;
            push_column(out, column.ty, &value)?;
            Ok(())
        }
    }
}

/// Adds the values of the first columns.
fn push_all_given(
    alloc: Global,
    out: &mut Vec<u8>,
    columns: &[ColumnDef],
    places: &[u8],
    values: &[Value],
) -> Result<(), Memory>
    requires { AllGiven columns.now places.now values.now }
    ensures { OnOk result (out.new.items ≡ out.old.items ++ given_parts columns.now places.now values.now) }
{
    for i in 0..places.len().min(values.len()) {
        push_given(alloc, out, columns, places[i] as usize, &values[i])?;
    }
    Ok(())
}

fn number_bytes(alloc: Global, index: Option<u32>) -> Result<Vec<u8>, AllocError>
    ensures { IfOk result (λ out. out.items ≡ behind_number index []) }
{
    let mut out = Vec::new(alloc);
    if let Some(index) = index {
        push_u32(&mut out, index)?;
    }
    Ok(out)
}

/// Given values of an index's first columns as bytes, in key order, behind the index number or
/// without it: where ranges of rows begin and end. `columns` are those of the key; there may be
/// fewer values than columns. Of a value that is longer than its column takes only what can matter
/// is copied, so it costs no more than the column's length.
pub fn encode_parts(
    alloc: Global,
    index: Option<u32>,
    def: &TableDef,
    columns: &[u8],
    values: &[Value],
) -> Result<Blob, Memory>
    requires { AllGiven def.now.columns columns.now values.now }
    ensures { IfOk result (λ bytes. bytes ≡ given_bytes index def.now columns.now values.now) }
{
    let mut out = number_bytes(alloc, index)?;
    push_all_given(alloc, &mut out, def.columns.as_slice(), columns, values)?;
    Ok(Blob::from_vec(out))
}

fn is_number(kind: Kind, number: i128) -> bool
    ensures yes { result ≡ true → IsNumber kind number }
    ensures not { result ≡ false → IsNumber kind number → ⊥ }
{
    match kind {
        Kind::Int => -0x8000_0000 <= number && number < 0x8000_0000,
        Kind::IntUnsigned => 0 <= number && number < 0x1_0000_0000,
        Kind::BigInt => -0x8000_0000_0000_0000 <= number && number < 0x8000_0000_0000_0000,
        Kind::BigIntUnsigned => 0 <= number && number < 0x1_0000_0000_0000_0000,
        Kind::VarChar(..) | Kind::VarBinary(_) => false,
    }
}

/// Whether a value has bytes in a column of a key: NULL where the column takes it, a number in the
/// range of its kind, a text or bytes of any length where it holds such.
pub fn fits(column: ColumnType, value: &Value) -> bool
    ensures yes { result ≡ true → FitsColumn column value.now }
    ensures not { result ≡ false → FitsColumn column value.now → ⊥ }
{
    match value {
        Value::Null => column.nullable,
        Value::Number(number) => is_number(column.kind, *number),
        Value::Text(_) => match column.kind {
            Kind::VarChar(..) => true,
            _ => false,
        },
        Value::Bytes(_) => match column.kind {
            Kind::VarBinary(_) => true,
            _ => false,
        },
    }
}

/// A row's first columns compare with given values as its key does with their bytes. With the law
/// on prefixes these are the ranges: `=` from the bytes up to those behind them, `<` and `<=` below
/// the one or the other, `>=` and `>` from them on.
pub fn parts_in_range()
    ensures { (index : Option ℕ) (def : TableDef) (places : List ℕ) (row : Row) (values : List Value) → IsRowOf def row → AllGiven def.columns places values → AreBytes (row_key index def places row) → PartsInRange index def places row values }
{}
