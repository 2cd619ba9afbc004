//! Columns of a definition that bytes are.

ghost use Rattle.std.specs.Prelude.{◌≡◌, ◌≤◌, length, IfOk};
ghost use Rattle.mr_fields.specs.Fields.{byte_in, listed_in};
ghost use Rattle.mr_fields.specs.Given.{Given, Reads};
ghost use Rattle.mr_schema.specs.DefinitionForm.{no_length_in, number_kind_in, collation_in, text_kind_in, binary_kind_in, kind_in, given_default_in, default_in, column_in, counted_in};

use mr_fields::{Offence, ReadStop, byte_at, flag_at, name_at, u16_at, value_at};
use mr_types::{Collation, ColumnDef, ColumnList, ColumnType, Kind, Value};
use std::alloc::Global;

fn no_length_at(bytes: &[u8]) -> Result<(u16, &[u8]), Offence>
    ensures { Reads result (no_length_in bytes.now) }
{
    let (length, rest) = u16_at(bytes)?;
    if length != 0 {
        return Err(Offence(bytes.len()));
    }
    Ok((length, rest))
}

/// The collation where there is none: 0.
fn no_collation_at(bytes: &[u8]) -> Result<(u8, &[u8]), Offence>
    ensures { Reads result (byte_in 1 bytes.now) }
{
    byte_at(1, bytes)
}

/// The length and the collation of a number, which are 0.
fn number_kind_at(kind: Kind, bytes: &[u8]) -> Result<(Kind, &[u8]), Offence>
    ensures { Reads result (number_kind_in kind bytes.now) }
{
    let (_, rest) = no_length_at(bytes)?;
    let (_, rest) = no_collation_at(rest)?;
    Ok((kind, rest))
}

fn collation_at(bytes: &[u8]) -> Result<(Collation, &[u8]), Offence>
    ensures { Reads result (collation_in bytes.now) }
{
    match bytes {
        [1, rest @ ..] => Ok((Collation::Bin, rest)),
        [2, rest @ ..] => Ok((Collation::Ci, rest)),
        _ => Err(Offence(bytes.len())),
    }
}

fn text_kind_at(bytes: &[u8]) -> Result<(Kind, &[u8]), Offence>
    ensures { Reads result (text_kind_in bytes.now) }
{
    let (most, rest) = u16_at(bytes)?;
    let (collation, rest) = collation_at(rest)?;
    Ok((Kind::VarChar(most, collation), rest))
}

fn binary_kind_at(bytes: &[u8]) -> Result<(Kind, &[u8]), Offence>
    ensures { Reads result (binary_kind_in bytes.now) }
{
    let (most, rest) = u16_at(bytes)?;
    let (_, rest) = no_collation_at(rest)?;
    Ok((Kind::VarBinary(most), rest))
}

fn kind_at(bytes: &[u8]) -> Result<(Kind, &[u8]), Offence>
    ensures { Reads result (kind_in bytes.now) }
{
    match bytes {
        [1, rest @ ..] => number_kind_at(Kind::Int, rest),
        [2, rest @ ..] => number_kind_at(Kind::IntUnsigned, rest),
        [3, rest @ ..] => number_kind_at(Kind::BigInt, rest),
        [4, rest @ ..] => number_kind_at(Kind::BigIntUnsigned, rest),
        [5, rest @ ..] => text_kind_at(rest),
        [6, rest @ ..] => binary_kind_at(rest),
        _ => Err(Offence(bytes.len())),
    }
}

fn given_default_at(
    alloc: Global,
    is_given: bool,
    bytes: &[u8],
) -> Result<(Option<Value>, &[u8]), ReadStop>
    ensures { Given result (given_default_in is_given bytes.now) }
{
    if !is_given {
        return Ok((None, bytes));
    }
    let (value, rest) = value_at(alloc, bytes)?;
    Ok((Some(value), rest))
}

fn default_at(alloc: Global, bytes: &[u8]) -> Result<(Option<Value>, &[u8]), ReadStop>
    ensures { Given result (default_in bytes.now) }
{
    let (is_given, rest) = flag_at(bytes)?;
    given_default_at(alloc, is_given, rest)
}

fn column_at(alloc: Global, bytes: &[u8]) -> Result<(ColumnDef, &[u8]), ReadStop>
    ensures { Given result (column_in bytes.now) }
{
    let (name, rest) = name_at(alloc, bytes)?;
    let (kind, rest) = kind_at(rest)?;
    let (nullable, rest) = flag_at(rest)?;
    let (default, rest) = default_at(alloc, rest)?;
    let ty = ColumnType { kind, nullable };
    Ok((ColumnDef { name, ty, default }, rest))
}

/// So many columns.
#[tactic(auto, using(mr_fields::proofs::Lists::stops))]
fn each_column_at(alloc: Global, count: u8, bytes: &[u8]) -> Result<(ColumnList, &[u8]), ReadStop>
    ensures given { Given result (listed_in column_in count bytes.now) }
    ensures few { IfOk result (λ r. length r.0 ≤ 255) }
{
    let mut columns = ColumnList::new(alloc);
    let mut rest = bytes;
    'reading: for i in 0..count {
        let (column, behind) = column_at(alloc, rest)?;
        columns.push(column)?;
        rest = behind;
    }
    Ok((columns, rest))
}

/// The columns of a definition, behind their count. Takes memory.
pub(crate) fn columns_at(alloc: Global, bytes: &[u8]) -> Result<(ColumnList, &[u8]), ReadStop>
    ensures given { Given result (counted_in column_in bytes.now) }
    ensures few { IfOk result (λ r. length r.0 ≤ 255) }
{
    let (count, rest) = byte_at(256, bytes)?;
    each_column_at(alloc, count, rest)
}
