//! An entry of the dictionary written as a key and a value. Numbers are big-endian.
//!
//!     key      kind u32, and the rest
//!     kind 1   a table: its name; its primary key's index number u32, one u32 for each secondary
//!              key, its definition
//!     kind 2   an index: its number u32; its family u32
//!     kind 3   a family: its number u32; its name
//!     kind 4   a dropped index: its number u32; its family u32
//!     kind 5   a building index: its number u32; the table's name, the key, its family u32, the
//!              filled place as text, which is a primary key or empty
//!     kind 6   the greatest index number: nothing; u32
//!     kind 7   the next hidden number: the primary key's index number u32; u64
//!     kind 8   the last commit: nothing; the number of commits u64, its moment u64
//!
//! Index 256 in family 1:
//!
//!     00 00 00 02   00 00 01 00      00 00 00 01
//!
//! Nothing tells how many index numbers stand before a definition. They are the fewest behind which
//! the rest of the value is a definition of that name, with one secondary key less than there are
//! numbers. A table whose bytes would be read so with fewer numbers isn't written; that needs an
//! index number of 2^24 or more.

ghost use Rattle.std.specs.Prelude.{◌≡◌, ◌<◌, ◌^◌, ◌-◌, ◌++◌, length, IfOk, OnOk, Ok, true, Option, Some, None};
ghost use Rattle.std.specs.List.{AllByRecursion};
ghost use Rattle.byteorder.specs.Endian.{big_bytes};
ghost use Rattle.mr_fields.specs.Fields.{name_bytes, listed_bytes};
ghost use Rattle.mr_spec.specs.RowForm.{text16_bytes};
ghost use Rattle.mr_schema.specs.DefinitionForm.{key_bytes, definition_bytes};
ghost use Rattle.mr_schema.specs.DefinitionFitting.{KeyHasPlace, DefinitionHasPlace};
ghost use Rattle.mr_dict_entry.specs.Entries.{kinded_key, entry_key, entry_value, numbered_in, reads_entry};
ghost use Rattle.mr_dict_entry.specs.EntryFitting.{EntryFits, NumbersFit, EntryHasPlace};
ghost use Rattle.mr_dict_entry.specs.Given.{HasNoFewer, ReadsBack};

use crate::entry::{DictEntry, NumberList};
use crate::table::{NoTable, numbered_def};
use mr_base::{Blob, Memory};
use mr_fields::{write_bytes, write_name, write_text16, write_u32, write_u64};
use mr_schema::{write_definition, write_key};
use mr_types::{IndexDef, TableDef};
use std::alloc::Global;

/// The key of a kind and what stands behind it.
fn key_of(alloc: Global, kind: u32, rest: &[u8]) -> Result<Blob, Memory>
    ensures { IfOk result (λ b. b ≡ kinded_key kind rest.now) }
{
    let mut out = Vec::new(alloc);
    write_u32(&mut out, kind)?;
    write_bytes(&mut out, rest)?;
    Ok(Blob::from_vec(out))
}

/// The key of a kind and a number.
fn numbered_key(alloc: Global, kind: u32, number: u32) -> Result<Blob, Memory>
    ensures { IfOk result (λ b. b ≡ kinded_key kind (big_bytes 4 number)) }
{
    let mut out = Vec::new(alloc);
    write_u32(&mut out, kind)?;
    write_u32(&mut out, number)?;
    Ok(Blob::from_vec(out))
}

/// The key of an entry. Takes memory.
pub fn key_of_entry(alloc: Global, entry: &DictEntry) -> Result<Blob, Memory>
    ensures { IfOk result (λ b. b ≡ entry_key entry.now) }
{
    match entry {
        DictEntry::Table { name, .. } => key_of(alloc, 1, name.as_slice()),
        DictEntry::Index { number, .. } => numbered_key(alloc, 2, *number),
        DictEntry::Family { family, .. } => numbered_key(alloc, 3, *family),
        DictEntry::Dropped { number, .. } => numbered_key(alloc, 4, *number),
        DictEntry::Building { number, .. } => numbered_key(alloc, 5, *number),
        DictEntry::Greatest(_) => key_of(alloc, 6, &[]),
        DictEntry::NextHidden { number, .. } => numbered_key(alloc, 7, *number),
        DictEntry::LastCommit { .. } => key_of(alloc, 8, &[]),
    }
}

fn write_numbers(out: &mut Vec<u8>, numbers: &[u32]) -> Result<(), Memory>
    ensures { OnOk result (out.new.items ≡ out.old.items ++ listed_bytes (big_bytes 4) numbers.now) }
{
    'writing: for number in numbers {
        write_u32(out, *number)?;
    }
    Ok(())
}

/// No fewer than so many numbers are read, or memory is wanting.
fn has_no_fewer(alloc: Global, name: &[u8], count: usize, value: &[u8]) -> Result<(), Memory>
    ensures { OnOk result (HasNoFewer name.now count value.now) }
{
    match numbered_def(alloc, name, count.saturating_sub(1), value) {
        Err(NoTable::Offence(_)) => Ok(()),
        _ => Err(Memory),
    }
}

fn table_value(
    alloc: Global,
    name: &Blob,
    numbers: &NumberList,
    def: &TableDef,
) -> Result<Blob, Memory>
    ensures written { IfOk result (λ b. b ≡ listed_bytes (big_bytes 4) numbers.now ++ definition_bytes def.now) }
    ensures place { OnOk result (DefinitionHasPlace def.now) }
    ensures no_fewer { IfOk result (HasNoFewer name.now (length numbers.now)) }
{
    let mut out = Vec::new(alloc);
    write_numbers(&mut out, numbers.as_slice())?;
    write_definition(&mut out, def)?;
    has_no_fewer(alloc, name.as_slice(), numbers.len(), &out)?;
    Ok(Blob::from_vec(out))
}

fn building_value(
    alloc: Global,
    table: &Blob,
    key: &IndexDef,
    family: u32,
    filled: &Blob,
) -> Result<Blob, Memory>
    ensures written { IfOk result (λ b. b ≡ name_bytes table.now ++ (key_bytes key.now ++ (big_bytes 4 family ++ text16_bytes filled.now))) }
    ensures place { OnOk result ((length table.now < 2 ^ 8) × KeyHasPlace key.now × (length filled.now < 2 ^ 16)) }
{
    let mut out = Vec::new(alloc);
    write_name(&mut out, table.as_slice())?;
    write_key(&mut out, key)?;
    write_u32(&mut out, family)?;
    write_text16(&mut out, filled.as_slice())?;
    Ok(Blob::from_vec(out))
}

fn u32_value(alloc: Global, number: u32) -> Result<Blob, Memory>
    ensures { IfOk result (λ b. b ≡ big_bytes 4 number) }
{
    let mut out = Vec::new(alloc);
    write_u32(&mut out, number)?;
    Ok(Blob::from_vec(out))
}

fn u64_value(alloc: Global, number: u64) -> Result<Blob, Memory>
    ensures { IfOk result (λ b. b ≡ big_bytes 8 number) }
{
    let mut out = Vec::new(alloc);
    write_u64(&mut out, number)?;
    Ok(Blob::from_vec(out))
}

fn commit_value(alloc: Global, commits: u64, moment: u64) -> Result<Blob, Memory>
    ensures { IfOk result (λ b. b ≡ big_bytes 8 commits ++ big_bytes 8 moment) }
{
    let mut out = Vec::new(alloc);
    write_u64(&mut out, commits)?;
    write_u64(&mut out, moment)?;
    Ok(Blob::from_vec(out))
}

/// Numbers of a slice are of 32 bits.
fn are_small(numbers: &[u32])
    ensures { AllByRecursion (λ number. number < 2 ^ 32) numbers.now }
{}

/// The numbers of an entry are of their size.
fn numbers_fit(entry: &DictEntry)
    ensures { NumbersFit entry.now }
{
    match entry {
        DictEntry::Table { numbers, .. } => {
            are_small(numbers.as_slice());
        }
        DictEntry::Index { number, family } | DictEntry::Dropped { number, family } => {
            let _numbers = (*number, *family);
        }
        DictEntry::Family { family, .. } => {
            let _number = *family;
        }
        DictEntry::Building { number, family, .. } => {
            let _numbers = (*number, *family);
        }
        DictEntry::Greatest(number) => {
            let _number = *number;
        }
        DictEntry::NextHidden { number, next } => {
            let _numbers = (*number, *next);
        }
        DictEntry::LastCommit { commits, moment } => {
            let _numbers = (*commits, *moment);
        }
    }
}

fn value_of_entry(alloc: Global, entry: &DictEntry) -> Result<Blob, Memory>
    ensures written { IfOk result (λ b. b ≡ entry_value entry.now) }
    ensures place { OnOk result (EntryHasPlace entry.now) }
    ensures reads_back { IfOk result (ReadsBack entry.now) }
{
    match entry {
        DictEntry::Table { name, numbers, def } => table_value(alloc, name, numbers, def),
        DictEntry::Index { family, .. } => u32_value(alloc, *family),
        DictEntry::Family { name, .. } => name.copy(alloc),
        DictEntry::Dropped { family, .. } => u32_value(alloc, *family),
        DictEntry::Building {
            table,
            key,
            family,
            filled,
            ..
        } => building_value(alloc, table, key, *family, filled),
        DictEntry::Greatest(number) => u32_value(alloc, *number),
        DictEntry::NextHidden { next, .. } => u64_value(alloc, *next),
        DictEntry::LastCommit { commits, moment } => commit_value(alloc, *commits, *moment),
    }
}

/// The key and the value of an entry. Takes memory. A length that has no place in its field is
/// answered as want of memory, and so is a table whose bytes would be read with fewer index numbers.
pub fn write_entry(alloc: Global, entry: &DictEntry) -> Result<(Blob, Blob), Memory>
    ensures written { IfOk result (λ p. (p.0 ≡ entry_key entry.now) × (p.1 ≡ entry_value entry.now)) }
    ensures place { OnOk result (EntryHasPlace entry.now) }
    ensures numbers { NumbersFit entry.now }
    ensures reads_back { EntryFits entry.now → IfOk result (λ p. reads_entry p.0 p.1 ≡ Ok entry.now) }
{
    numbers_fit(entry);
    let key = key_of_entry(alloc, entry)?;
    let value = value_of_entry(alloc, entry)?;
    Ok((key, value))
}
