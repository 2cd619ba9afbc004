//! The index numbers of a table and its definition, of which nothing tells how many they are.

ghost use Rattle.std.specs.Prelude.{◌≡◌, ◌≤◌, length, drop};
ghost use Rattle.mr_fields.specs.Fields.{whole_in};
ghost use Rattle.mr_fields.specs.Given.{GivesWhole};
ghost use Rattle.mr_schema.specs.DefinitionForm.{definition_in};
ghost use Rattle.mr_dict_entry.specs.Entries.{has_name as begins_with_name, first_of, keyed_def_in, named_def_in, numbered_in};
ghost use Rattle.mr_dict_entry.specs.Given.{GivesNamed};

use crate::entry::NumberList;
use byteorder::{BigEndian, ByteOrder};
use mr_fields::{ReadStop, end_of};
use mr_schema::definition_at;
use mr_types::TableDef;
use std::alloc::{AllocError, Global};

/// Why no table is read.
#[derive(Clone, Copy, Drop)]
pub enum NoTable {
    Memory,
    /// So many bytes are left from the first offence of a definition of the table on; None where no
    /// definition of it begins.
    Offence(Option<usize>),
}

impl From<AllocError> for NoTable {
    ghost use Rattle.mr_dict_entry.specs.declared.table.NoTable.TheVariants.{Memory as MemoryStop};

    ghost from_gives = { λ _ e. e ≡ MemoryStop };

    fn from(_: AllocError) -> Self {
        NoTable::Memory
    }
}

/// Whether the bytes begin with this name behind its length.
fn has_name(name: &[u8], bytes: &[u8]) -> bool
    ensures { result ≡ begins_with_name name.now bytes.now }
{
    match bytes {
        [size, rest @ ..] => *size as usize == name.len() && rest.starts_with(name),
        [] => false,
    }
}

fn whole_def(alloc: Global, bytes: &[u8]) -> Result<TableDef, ReadStop>
    ensures { GivesWhole result (whole_in definition_in bytes.now) }
{
    let (def, rest) = definition_at(alloc, bytes)?;
    end_of(rest)?;
    Ok(def)
}

/// A definition of so many secondary keys, and nothing behind it. Takes memory.
fn keyed_def(alloc: Global, keys: usize, bytes: &[u8]) -> Result<TableDef, ReadStop>
    ensures { GivesWhole result (keyed_def_in keys bytes.now) }
{
    let def = whole_def(alloc, bytes)?;
    if def.secondary.len() == keys {
        Ok(def)
    } else {
        Err(ReadStop::Left(bytes.len()))
    }
}

/// A definition of a table of this name with so many secondary keys. Takes memory.
fn named_def(alloc: Global, name: &[u8], keys: usize, bytes: &[u8]) -> Result<TableDef, NoTable>
    ensures { GivesNamed result (named_def_in name.now keys bytes.now) }
{
    if !has_name(name, bytes) {
        return Err(NoTable::Offence(None));
    }
    match keyed_def(alloc, keys, bytes) {
        Ok(def) => Ok(def),
        Err(ReadStop::Memory) => Err(NoTable::Memory),
        Err(ReadStop::Left(left)) => Err(NoTable::Offence(Some(left))),
    }
}

/// What stands behind a number of four bytes.
fn behind_number(bytes: &[u8]) -> &[u8]
    requires { 4 ≤ length bytes.now }
    ensures { result.now ≡ drop 4 bytes.now }
{
    bytes.split_at(4).1
}

fn first_offence(first: Option<usize>, other: Option<usize>) -> Option<usize>
    ensures { result ≡ first_of first other }
{
    match first {
        Some(left) => Some(left),
        None => other,
    }
}

/// Index numbers, of which there are at most `most`, and the definition of a table of this name that
/// has as many keys: the fewest numbers behind which such a definition stands. Takes memory.
pub fn numbered_def(
    alloc: Global,
    name: &[u8],
    most: usize,
    value: &[u8],
) -> Result<(NumberList, TableDef), NoTable>
    ensures { GivesNamed result (numbered_in name.now most 0 value.now) }
{
    let mut numbers = NumberList::new(alloc);
    let mut rest = value;
    let mut offence = None;
    'trying: for keys in 0..most {
        if rest.len() < 4 {
            return Err(NoTable::Offence(offence));
        }
        let number = BigEndian::read_u32(rest);
        let behind = behind_number(rest);
        numbers.push(number)?;
        match named_def(alloc, name, keys, behind) {
            Ok(def) => return Ok((numbers, def)),
            Err(NoTable::Memory) => return Err(NoTable::Memory),
            Err(NoTable::Offence(other)) => offence = first_offence(offence, other),
        }
        rest = behind;
    }
    Err(NoTable::Offence(offence))
}
