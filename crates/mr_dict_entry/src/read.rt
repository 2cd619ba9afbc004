//! The entry that a key and a value are.

ghost use Rattle.std.specs.Prelude.{◌≡◌, ◌+◌, length, IfOk, IfErr, Ok};
ghost use Rattle.std.specs.List.{list_all};
ghost use Rattle.mr_fields.specs.Fields.{is_name_byte as name_byte};
ghost use Rattle.mr_fields.specs.Given.{GivesWhole, IsAnswer};
ghost use Rattle.mr_dict_entry.specs.Entries.{is_table_name as table_name, is_family_name as family_name, table_in, index_in, family_in, dropped_in, building_in, greatest_in, next_hidden_in, last_commit_in, entry_in, entry_key, entry_value, reads_entry};

use crate::entry::DictEntry;
use crate::numbers::{lone_u32, lone_u64};
use crate::table::{NoTable, numbered_def};
use byteorder::{BigEndian, ByteOrder};
use mr_base::{Blob, DefAnswer};
use mr_fields::{ReadStop, answer_of, bytes16_at, end_of, name_at, u32_at, u64_at};
use mr_lanes::is_ascii;
use mr_schema::key_at;
use std::alloc::Global;

fn is_name_byte(byte: u8) -> bool
    ensures { result ≡ name_byte byte }
{
    0 < byte && byte < 0x80
}

fn are_name_bytes(name: &[u8]) -> bool
    ensures { result ≡ list_all name_byte name.now }
{
    name.iter().all(|byte| is_name_byte(*byte))
}

fn is_table_name(name: &[u8]) -> bool
    ensures { result ≡ table_name name.now }
{
    name.len() < 256 && 0 < name.len() && are_name_bytes(name)
}

fn is_family_name(name: &[u8]) -> bool
    ensures { result ≡ family_name name.now }
{
    0 < name.len() && is_ascii(name)
}

fn table_at(alloc: Global, rest: &[u8], value: &[u8]) -> Result<DictEntry, ReadStop>
    ensures { GivesWhole result (table_in rest.now value.now) }
{
    if !is_table_name(rest) {
        return Err(ReadStop::Left(rest.len() + value.len()));
    }
    match numbered_def(alloc, rest, 256, value) {
        Ok((numbers, def)) => {
            let name = Blob::from_slice(alloc, rest)?;
            Ok(DictEntry::Table { name, numbers, def })
        }
        Err(NoTable::Memory) => Err(ReadStop::Memory),
        Err(NoTable::Offence(Some(left))) => Err(ReadStop::Left(left)),
        Err(NoTable::Offence(None)) => Err(ReadStop::Left(if value.len() < 4 {
            value.len()
        } else {
            value.len() - 4
        })),
    }
}

fn index_at(rest: &[u8], value: &[u8]) -> Result<DictEntry, ReadStop>
    ensures { GivesWhole result (index_in rest.now value.now) }
{
    let number = lone_u32(rest, value.len())?;
    let family = lone_u32(value, 0)?;
    Ok(DictEntry::Index { number, family })
}

fn family_at(alloc: Global, rest: &[u8], value: &[u8]) -> Result<DictEntry, ReadStop>
    ensures { GivesWhole result (family_in rest.now value.now) }
{
    let family = lone_u32(rest, value.len())?;
    if !is_family_name(value) {
        return Err(ReadStop::Left(value.len()));
    }
    let name = Blob::from_slice(alloc, value)?;
    Ok(DictEntry::Family { family, name })
}

fn dropped_at(rest: &[u8], value: &[u8]) -> Result<DictEntry, ReadStop>
    ensures { GivesWhole result (dropped_in rest.now value.now) }
{
    let number = lone_u32(rest, value.len())?;
    let family = lone_u32(value, 0)?;
    Ok(DictEntry::Dropped { number, family })
}

fn building_at(alloc: Global, rest: &[u8], value: &[u8]) -> Result<DictEntry, ReadStop>
    ensures { GivesWhole result (building_in rest.now value.now) }
{
    let number = lone_u32(rest, value.len())?;
    let (table, behind) = name_at(alloc, value)?;
    let (key, behind) = key_at(alloc, 256, behind)?;
    let (family, behind) = u32_at(behind)?;
    let (filled, behind) = bytes16_at(alloc, behind)?;
    end_of(behind)?;
    Ok(DictEntry::Building {
        number,
        table,
        key,
        family,
        filled,
    })
}

fn greatest_at(rest: &[u8], value: &[u8]) -> Result<DictEntry, ReadStop>
    ensures { GivesWhole result (greatest_in rest.now value.now) }
{
    if 0 < rest.len() {
        return Err(ReadStop::Left(rest.len() + value.len()));
    }
    let number = lone_u32(value, 0)?;
    Ok(DictEntry::Greatest(number))
}

fn next_hidden_at(rest: &[u8], value: &[u8]) -> Result<DictEntry, ReadStop>
    ensures { GivesWhole result (next_hidden_in rest.now value.now) }
{
    let number = lone_u32(rest, value.len())?;
    let next = lone_u64(value)?;
    Ok(DictEntry::NextHidden { number, next })
}

fn last_commit_at(rest: &[u8], value: &[u8]) -> Result<DictEntry, ReadStop>
    ensures { GivesWhole result (last_commit_in rest.now value.now) }
{
    if 0 < rest.len() {
        return Err(ReadStop::Left(rest.len() + value.len()));
    }
    let (commits, behind) = u64_at(value)?;
    let moment = lone_u64(behind)?;
    Ok(DictEntry::LastCommit { commits, moment })
}

fn entry_at(alloc: Global, key: &[u8], value: &[u8]) -> Result<DictEntry, ReadStop>
    ensures { GivesWhole result (entry_in key.now value.now) }
{
    if key.len() < 4 {
        return Err(ReadStop::Left(key.len() + value.len()));
    }
    let rest = &key[4..];
    match BigEndian::read_u32(key) {
        1 => table_at(alloc, rest, value),
        2 => index_at(rest, value),
        3 => family_at(alloc, rest, value),
        4 => dropped_at(rest, value),
        5 => building_at(alloc, rest, value),
        6 => greatest_at(rest, value),
        7 => next_hidden_at(rest, value),
        8 => last_commit_at(rest, value),
        _ => Err(ReadStop::Left(key.len() + value.len())),
    }
}

/// The entry that a key and a value are, or the first offending place; those of the value follow
/// those of the key. Takes memory.
pub fn read_entry(alloc: Global, key: &[u8], value: &[u8]) -> Result<DictEntry, DefAnswer>
    ensures ok { IfOk result (λ e. reads_entry key.now value.now ≡ Ok e) }
    ensures err { IfErr result (IsAnswer (reads_entry key.now value.now)) }
    ensures form { IfOk result (λ e. (key.now ≡ entry_key e) × (value.now ≡ entry_value e)) }
{
    match entry_at(alloc, key, value) {
        Ok(entry) => Ok(entry),
        Err(stop) => Err(answer_of(key.len() + value.len(), stop)),
    }
}
