//! A definition written as bytes.
//!
//!     definition   name; count of columns u8, columns; primary key; count of secondary keys u8,
//!                  keys; comment as text
//!     column       name; kind u8: 1 INT, 2 INT UNSIGNED, 3 BIGINT, 4 BIGINT UNSIGNED, 5 VARCHAR,
//!                  6 VARBINARY; length u16, 0 for a number; collation u8, 0 but for a VARCHAR: 1
//!                  ascii_bin, 2 ascii_general_ci; 1 where nullable else 0; 00 without a default,
//!                  else 01 and its value
//!     primary key  count of parts u8, 0 where it is hidden; their places u8; comment as text
//!     key          name; 1 where unique else 0; count of parts u8, places u8; comment as text
//!     name         length u8, bytes
//!     text         length u16, bytes
//!
//! Table `t` of a BIGINT primary key `id` and a BIGINT column `v`:
//!
//!     01 't' 02
//!     02 'i' 'd' 03 00 00 00 00 00
//!     01 'v' 03 00 00 00 01 01 00
//!     01 00 00 00 00 00 00

ghost use Rattle.std.specs.Prelude.{◌≡◌, ◌<◌, ◌^◌, ◌++◌, ◌∷◌, [], length, IfOk, OnOk, Ok};
ghost use Rattle.std.specs.List.{AllByRecursion};
ghost use Rattle.byteorder.specs.Endian.{big_bytes};
ghost use Rattle.mr_fields.specs.Fields.{listed_bytes};
ghost use Rattle.mr_schema.specs.DefinitionForm.{kind_bytes, collation_byte, default_bytes, column_bytes, counted_bytes, places_bytes, primary_bytes, key_bytes, definition_bytes, reads_definition};
ghost use Rattle.mr_schema.specs.DefinitionFitting.{DefinitionFits, DefaultHasPlace, ColumnHasPlace, PrimaryHasPlace, KeyHasPlace, DefinitionHasPlace};

use mr_base::{Blob, Memory};
use mr_fields::{
    write_byte, write_bytes, write_count, write_flag, write_name, write_text16, write_u16,
    write_value,
};
use mr_types::{Collation, ColumnDef, IndexDef, Kind, TableDef, Value};
use std::alloc::Global;

fn byte_of(collation: Collation) -> u8
    ensures { result ≡ collation_byte collation }
{
    match collation {
        Collation::Bin => 1,
        Collation::Ci => 2,
    }
}

/// A kind behind its number, with a length and a collation.
fn write_sized_kind(out: &mut Vec<u8>, kind: u8, length: u16, collation: u8) -> Result<(), Memory>
    ensures { OnOk result (out.new.items ≡ out.old.items ++ kind ∷ (big_bytes 2 length ++ collation ∷ [])) }
{
    write_byte(out, kind)?;
    write_u16(out, length)?;
    write_byte(out, collation)
}

fn write_kind(out: &mut Vec<u8>, kind: Kind) -> Result<(), Memory>
    ensures { OnOk result (out.new.items ≡ out.old.items ++ kind_bytes kind) }
{
    match kind {
        Kind::Int => write_bytes(out, &[1, 0, 0, 0]),
        Kind::IntUnsigned => write_bytes(out, &[2, 0, 0, 0]),
        Kind::BigInt => write_bytes(out, &[3, 0, 0, 0]),
        Kind::BigIntUnsigned => write_bytes(out, &[4, 0, 0, 0]),
        Kind::VarChar(most, collation) => write_sized_kind(out, 5, most, byte_of(collation)),
        Kind::VarBinary(most) => write_sized_kind(out, 6, most, 0),
    }
}

fn write_default(out: &mut Vec<u8>, default: &Option<Value>) -> Result<(), Memory>
    ensures written { OnOk result (out.new.items ≡ out.old.items ++ default_bytes default.now) }
    ensures place { OnOk result (DefaultHasPlace default.now) }
{
    match default {
        None => write_byte(out, 0),
        Some(value) => {
            write_byte(out, 1)?;
            write_value(out, value)
        }
    }
}

fn write_column(out: &mut Vec<u8>, column: &ColumnDef) -> Result<(), Memory>
    ensures written { OnOk result (out.new.items ≡ out.old.items ++ column_bytes column.now) }
    ensures place { OnOk result (ColumnHasPlace column.now) }
{
    write_name(out, column.name.as_slice())?;
    write_kind(out, column.ty.kind)?;
    write_flag(out, column.ty.nullable)?;
    write_default(out, &column.default)
}

fn write_each_column(out: &mut Vec<u8>, columns: &[ColumnDef]) -> Result<(), Memory>
    ensures written { OnOk result (out.new.items ≡ out.old.items ++ listed_bytes column_bytes columns.now) }
    ensures place { OnOk result (AllByRecursion ColumnHasPlace columns.now) }
{
    'writing: for column in columns {
        write_column(out, column)?;
    }
    Ok(())
}

fn write_columns(out: &mut Vec<u8>, columns: &[ColumnDef]) -> Result<(), Memory>
    ensures written { OnOk result (out.new.items ≡ out.old.items ++ counted_bytes column_bytes columns.now) }
    ensures count { OnOk result (length columns.now < 2 ^ 8) }
    ensures place { OnOk result (AllByRecursion ColumnHasPlace columns.now) }
{
    write_count(out, columns.len())?;
    write_each_column(out, columns)
}

fn write_places(out: &mut Vec<u8>, places: &[u8]) -> Result<(), Memory>
    ensures written { OnOk result (out.new.items ≡ out.old.items ++ places_bytes places.now) }
    ensures place { OnOk result (length places.now < 2 ^ 8) }
{
    write_count(out, places.len())?;
    write_bytes(out, places)
}

fn write_primary(out: &mut Vec<u8>, key: &IndexDef) -> Result<(), Memory>
    ensures written { OnOk result (out.new.items ≡ out.old.items ++ primary_bytes key.now) }
    ensures place { OnOk result (PrimaryHasPlace key.now) }
{
    write_places(out, key.columns.as_slice())?;
    write_text16(out, key.comment.as_slice())
}

/// Adds a secondary key. Takes memory. A length that has no place in its field is answered as want
/// of memory.
pub fn write_key(out: &mut Vec<u8>, key: &IndexDef) -> Result<(), Memory>
    ensures written { OnOk result (out.new.items ≡ out.old.items ++ key_bytes key.now) }
    ensures place { OnOk result (KeyHasPlace key.now) }
{
    write_name(out, key.name.as_slice())?;
    write_flag(out, key.unique)?;
    write_primary(out, key)
}

fn write_each_key(out: &mut Vec<u8>, keys: &[IndexDef]) -> Result<(), Memory>
    ensures written { OnOk result (out.new.items ≡ out.old.items ++ listed_bytes key_bytes keys.now) }
    ensures place { OnOk result (AllByRecursion KeyHasPlace keys.now) }
{
    'writing: for key in keys {
        write_key(out, key)?;
    }
    Ok(())
}

fn write_keys(out: &mut Vec<u8>, keys: &[IndexDef]) -> Result<(), Memory>
    ensures written { OnOk result (out.new.items ≡ out.old.items ++ counted_bytes key_bytes keys.now) }
    ensures count { OnOk result (length keys.now < 2 ^ 8) }
    ensures place { OnOk result (AllByRecursion KeyHasPlace keys.now) }
{
    write_count(out, keys.len())?;
    write_each_key(out, keys)
}

/// Adds a definition. Takes memory. A length that has no place in its field, and a number that isn't
/// from -2^63 to 2^64 - 1, are answered as want of memory.
pub fn write_definition(out: &mut Vec<u8>, def: &TableDef) -> Result<(), Memory>
    ensures written { OnOk result (out.new.items ≡ out.old.items ++ definition_bytes def.now) }
    ensures place { OnOk result (DefinitionHasPlace def.now) }
{
    write_name(out, def.name.as_slice())?;
    write_columns(out, def.columns.as_slice())?;
    write_primary(out, &def.primary)?;
    write_keys(out, def.secondary.as_slice())?;
    write_text16(out, def.comment.as_slice())
}

/// The bytes of a definition. Takes memory, as `write_definition` does.
pub fn write_def(alloc: Global, def: &TableDef) -> Result<Blob, Memory>
    ensures written { IfOk result (λ b. b ≡ definition_bytes def.now) }
    ensures place { OnOk result (DefinitionHasPlace def.now) }
    ensures reads_back { DefinitionFits def.now → IfOk result (λ b. reads_definition b ≡ Ok def.now) }
{
    let mut out = Vec::new(alloc);
    write_definition(&mut out, def)?;
    Ok(Blob::from_vec(out))
}
