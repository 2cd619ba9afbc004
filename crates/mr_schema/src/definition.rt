//! The definition that a text gives, or its first refusal.

ghost use Rattle.std.specs.Prelude.{◌≡◌, ◌≤◌, [], length};
ghost use Rattle.mr_types.specs.Values.{Answers};
ghost use Rattle.mr_spec.specs.TtlOptions.{stamp_column as column_for_stamp, may_hold_stamp as holds_stamp, ttl_for as ttl_of_options, ttl_of as ttl_in};
ghost use Rattle.mr_spec.specs.Checks.{check as checked, check_key as checked_beside};
ghost use Rattle.mr_schema.specs.Said.{said};

use crate::columns::columns_of;
use crate::keys::{Keys, key_of, key_or_hidden, keys_of};
use crate::names::place_in;
use crate::options::CommentOptions;
use mr_base::Blob;
use mr_types::{ColumnDef, IndexDef, KeyText, Kind, Refused, TableDef, TableText, Ttl};
use std::alloc::Global;

fn may_hold_stamp(column: &ColumnDef) -> bool
    ensures { result ≡ holds_stamp column.now }
{
    match column.ty.kind {
        Kind::BigIntUnsigned => !column.ty.nullable,
        _ => false,
    }
}

/// The place of the column of this name: 1054 where it isn't there, 1064 where it may hold no stamp.
fn stamp_column(columns: &[ColumnDef], name: &[u8]) -> Result<u8, Refused>
    requires few { length columns.now ≤ 255 }
    ensures { Answers result (column_for_stamp columns.now name.now) }
{
    let Some(place) = place_in(columns, name) else {
        return Err(Refused::Sql(1054));
    };
    match columns.get(place) {
        Some(column) => {
            if !may_hold_stamp(column) {
                return Err(Refused::Sql(1064));
            }
            Ok(place as u8)
        }
        None => Err(Refused::Sql(1064)),
    }
}

/// The TTL of these options, or the first refusal of its column.
pub(crate) fn ttl_for(
    columns: &[ColumnDef],
    options: &CommentOptions,
) -> Result<Option<Ttl>, Refused>
    requires few { length columns.now ≤ 255 }
    ensures { Answers result (ttl_of_options columns.now options.now.duration options.now.column) }
{
    match (options.duration, &options.column) {
        (None, _) => Ok(None),
        (Some(duration), None) => Ok(Some(Ttl {
            duration,
            column: None,
        })),
        (Some(duration), Some(name)) => {
            let place = stamp_column(columns, name.as_slice())?;
            Ok(Some(Ttl {
                duration,
                column: Some(place),
            }))
        }
    }
}

/// The TTL that a table's comment gives, or the first of its refusals.
fn ttl_of(alloc: Global, columns: &[ColumnDef], comment: &[u8]) -> Result<Option<Ttl>, Refused>
    requires few { length columns.now ≤ 64 }
    ensures { Answers result (ttl_in columns.now comment.now) }
{
    if comment.len() > 1024 {
        return Err(Refused::Sql(1064));
    }
    let options = CommentOptions::parse(alloc, comment)?;
    ttl_for(columns, &options)
}

/// The definition that the text gives, or its first refusal. First the columns are checked, then
/// the keys, then the table's comment: 1117, and for each column 1060, 1074, 1067; for each key
/// 1069, 1061, 1068, 1070, 1072, 1060, 1071, 1064; then 1064, 1054.
pub fn check(alloc: Global, text: &TableText) -> Result<TableDef, Refused>
    ensures { Answers result (checked text.now) }
{
    let columns = columns_of(alloc, text)?;
    let keys = keys_of(alloc, columns.as_slice(), text.keys.as_slice())?;
    let ttl = ttl_of(alloc, columns.as_slice(), text.comment.as_slice())?;
    let Keys { primary, secondary } = keys;
    Ok(TableDef::new(
        text.name.copy(alloc)?,
        columns,
        key_or_hidden(alloc, primary),
        secondary,
        text.comment.copy(alloc)?,
        ttl,
    ))
}

/// A further key of a table, whose name isn't one of these either, or the first of its refusals.
pub fn check_key_beside(
    alloc: Global,
    def: &TableDef,
    taken: &[Blob],
    key: &KeyText,
) -> Result<IndexDef, Refused>
    requires few { length def.now.columns ≤ 255 }
    ensures { Answers result (checked_beside def.now taken.now key.now) }
{
    key_of(
        alloc,
        def.columns.as_slice(),
        true,
        def.secondary.as_slice(),
        taken,
        key,
    )
}

/// A further key of a table, or the first of its refusals.
pub fn check_key(alloc: Global, def: &TableDef, key: &KeyText) -> Result<IndexDef, Refused>
    requires few { length def.now.columns ≤ 255 }
    ensures { Answers result (checked_beside def.now [] key.now) }
{
    check_key_beside(alloc, def, &[], key)
}
