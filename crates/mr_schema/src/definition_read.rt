//! The definition that bytes are.

ghost use Rattle.std.specs.Prelude.{◌≡◌, ◌≤◌, length, IfOk, IfErr, Ok};
ghost use Rattle.mr_types.specs.Values.{Answers};
ghost use Rattle.mr_fields.specs.Fields.{byte_in, listed_in, whole_in};
ghost use Rattle.mr_fields.specs.Given.{Given, GivesWhole, IsAnswer};
ghost use Rattle.mr_schema.specs.DefinitionForm.{counted_in, places_in, primary_in, key_in, ttl_said as said_ttl, comment_in, behind_columns as behind_columns_in, definition_in, definition_bytes, reads_definition};

use crate::column_read::columns_at;
use crate::definition::ttl_for;
use crate::options::CommentOptions;
use mr_base::{Blob, DefAnswer};
use mr_fields::{ReadStop, answer_of, byte_at, end_of, flag_at, name_at, text16_at};
use mr_types::{ColumnDef, ColumnList, IndexDef, IndexList, Refused, TableDef, Ttl};
use std::alloc::Global;

/// So many places below `limit`.
#[tactic(auto, using(mr_fields::proofs::Lists::goes_on, mr_fields::proofs::Lists::stops))]
fn each_place_at(
    alloc: Global,
    limit: usize,
    count: u8,
    bytes: &[u8],
) -> Result<(Blob, &[u8]), ReadStop>
    ensures { Given result (listed_in (byte_in limit) count bytes.now) }
{
    let mut places = Vec::new(alloc);
    let mut rest = bytes;
    'reading: for i in 0..count {
        let (place, behind) = byte_at(limit, rest)?;
        places.push(place)?;
        rest = behind;
    }
    Ok((Blob::from_vec(places), rest))
}

fn places_at(alloc: Global, limit: usize, bytes: &[u8]) -> Result<(Blob, &[u8]), ReadStop>
    ensures { Given result (places_in limit bytes.now) }
{
    let (count, rest) = byte_at(256, bytes)?;
    each_place_at(alloc, limit, count, rest)
}

/// A primary key, whose places are below `limit`.
fn primary_below(alloc: Global, limit: usize, bytes: &[u8]) -> Result<(IndexDef, &[u8]), ReadStop>
    ensures { Given result (primary_in limit bytes.now) }
{
    let (columns, rest) = places_at(alloc, limit, bytes)?;
    let (comment, rest) = text16_at(alloc, rest)?;
    let name = Blob::from_vec(Vec::new(alloc));
    Ok((
        IndexDef {
            name,
            columns,
            unique: true,
            comment,
        },
        rest,
    ))
}

/// The primary key of a table with these columns.
fn primary_at<'a>(
    alloc: Global,
    columns: &ColumnList,
    bytes: &'a [u8],
) -> Result<(IndexDef, &'a [u8]), ReadStop>
    ensures { Given result (primary_in (length columns.now) bytes.now) }
{
    primary_below(alloc, columns.len(), bytes)
}

/// The secondary key in front, whose places are below `limit`. Takes memory.
pub fn key_at(alloc: Global, limit: usize, bytes: &[u8]) -> Result<(IndexDef, &[u8]), ReadStop>
    ensures { Given result (key_in limit bytes.now) }
{
    let (name, rest) = name_at(alloc, bytes)?;
    let (unique, rest) = flag_at(rest)?;
    let (columns, rest) = places_at(alloc, limit, rest)?;
    let (comment, rest) = text16_at(alloc, rest)?;
    Ok((
        IndexDef {
            name,
            columns,
            unique,
            comment,
        },
        rest,
    ))
}

/// So many keys.
#[tactic(auto, using(mr_fields::proofs::Lists::stops))]
fn each_key_at(
    alloc: Global,
    limit: usize,
    count: u8,
    bytes: &[u8],
) -> Result<(IndexList, &[u8]), ReadStop>
    ensures { Given result (listed_in (key_in limit) count bytes.now) }
{
    let mut keys = IndexList::new(alloc);
    let mut rest = bytes;
    'reading: for i in 0..count {
        let (key, behind) = key_at(alloc, limit, rest)?;
        keys.push(key)?;
        rest = behind;
    }
    Ok((keys, rest))
}

/// The secondary keys of a table with these columns.
fn keys_at<'a>(
    alloc: Global,
    columns: &ColumnList,
    bytes: &'a [u8],
) -> Result<(IndexList, &'a [u8]), ReadStop>
    ensures { Given result (counted_in (key_in (length columns.now)) bytes.now) }
{
    let (count, rest) = byte_at(256, bytes)?;
    each_key_at(alloc, columns.len(), count, rest)
}

/// The TTL that a comment of any length says, or the first of its refusals.
fn ttl_said(alloc: Global, columns: &[ColumnDef], comment: &[u8]) -> Result<Option<Ttl>, Refused>
    requires few { length columns.now ≤ 255 }
    ensures { Answers result (said_ttl columns.now comment.now) }
{
    let options = CommentOptions::parse(alloc, comment)?;
    ttl_for(columns, &options)
}

/// A table's comment, and the TTL that it says.
fn comment_at<'a>(
    alloc: Global,
    columns: &ColumnList,
    bytes: &'a [u8],
) -> Result<((Blob, Option<Ttl>), &'a [u8]), ReadStop>
    requires few { length columns.now ≤ 255 }
    ensures { Given result (comment_in columns.now bytes.now) }
{
    let (comment, rest) = text16_at(alloc, bytes)?;
    match ttl_said(alloc, columns.as_slice(), comment.as_slice()) {
        Ok(ttl) => Ok(((comment, ttl), rest)),
        Err(Refused::Memory) => Err(ReadStop::Memory),
        Err(Refused::Sql(_)) => Err(ReadStop::Left(bytes.len())),
    }
}

/// What stands behind the name and the columns.
fn behind_columns(
    alloc: Global,
    name: Blob,
    columns: ColumnList,
    bytes: &[u8],
) -> Result<(TableDef, &[u8]), ReadStop>
    requires few { length columns ≤ 255 }
    ensures { Given result (behind_columns_in name columns bytes.now) }
{
    let (primary, rest) = primary_at(alloc, &columns, bytes)?;
    let (secondary, rest) = keys_at(alloc, &columns, rest)?;
    let ((comment, ttl), rest) = comment_at(alloc, &columns, rest)?;
    Ok((
        TableDef::new(name, columns, primary, secondary, comment, ttl),
        rest,
    ))
}

/// The definition in front. Takes memory.
pub fn definition_at(alloc: Global, bytes: &[u8]) -> Result<(TableDef, &[u8]), ReadStop>
    ensures { Given result (definition_in bytes.now) }
{
    let (name, rest) = name_at(alloc, bytes)?;
    let (columns, rest) = columns_at(alloc, rest)?;
    behind_columns(alloc, name, columns, rest)
}

fn whole_definition(alloc: Global, bytes: &[u8]) -> Result<TableDef, ReadStop>
    ensures { GivesWhole result (whole_in definition_in bytes.now) }
{
    let (def, rest) = definition_at(alloc, bytes)?;
    end_of(rest)?;
    Ok(def)
}

/// The definition that the bytes are, or the first offending place. Takes memory.
pub fn read_def(alloc: Global, bytes: &[u8]) -> Result<TableDef, DefAnswer>
    ensures ok { IfOk result (λ d. reads_definition bytes.now ≡ Ok d) }
    ensures err { IfErr result (IsAnswer (reads_definition bytes.now)) }
    ensures form { IfOk result (λ d. bytes.now ≡ definition_bytes d) }
{
    match whole_definition(alloc, bytes) {
        Ok(def) => Ok(def),
        Err(stop) => Err(answer_of(bytes.len(), stop)),
    }
}
