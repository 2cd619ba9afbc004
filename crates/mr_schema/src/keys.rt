//! The keys of a definition.

ghost use Rattle.std.specs.Prelude.{◌≡◌, ◌≤◌, length, map, sum, slice_get, nat_eq, IfOk};
ghost use Rattle.std.specs.List.{list_any};
ghost use Rattle.std.specs.Option.{option_map_or};
ghost use Rattle.mr_types.specs.Values.{Answers, same_name};
ghost use Rattle.mr_spec.specs.KeyChecks.{key_bytes as bytes_in_key, has_repeat as repeats, is_taken as takes, is_named, places_of as places_in, width_of as width_in, checked_key, with_key as and_key, hidden_key as hidden};
ghost use Rattle.mr_types.specs.Refusals.{in_turn};
ghost use Rattle.mr_schema.specs.Widths.{width_at as width_of_place};
ghost use Rattle.mr_schema.specs.Said.{said_keys, SaysKeys, no_keys};

use crate::names::{is_among, is_same_name, place_in};
use mr_base::Blob;
use mr_types::{ColumnDef, IndexDef, IndexList, KeyText, Kind, Refused};
use std::alloc::{AllocError, Global};

/// The bytes that a column counts for in a key.
fn key_bytes(kind: Kind) -> usize
    ensures is { result ≡ bytes_in_key kind }
    ensures small { result ≤ 65535 }
{
    match kind {
        Kind::Int | Kind::IntUnsigned => 4,
        Kind::BigInt | Kind::BigIntUnsigned => 8,
        Kind::VarChar(most, _) => most as usize,
        Kind::VarBinary(most) => most as usize,
    }
}

fn width_at(columns: &[ColumnDef], place: u8) -> usize
    ensures is { result ≡ width_of_place columns.now place }
    ensures small { result ≤ 65535 }
{
    match columns.get(place as usize) {
        Some(column) => key_bytes(column.ty.kind),
        None => 0,
    }
}

/// The bytes of the columns at these places, summed.
fn width_of(columns: &[ColumnDef], places: &[u8]) -> usize
    requires few { length places.now ≤ 16 }
    ensures { result ≡ width_in columns.now places.now }
{
    let mut width = 0;
    for place in places {
        width += width_at(columns, *place);
    }
    width
}

fn is_place_among(places: &[u8], place: u8) -> bool
    ensures { result ≡ list_any (nat_eq place) places.now }
{
    places.iter().any(|other| place == *other)
}

/// Whether a place stands twice.
fn has_repeat(places: &[u8]) -> bool
    ensures { result ≡ repeats places.now }
{
    for (i, place) in places.iter().enumerate() {
        if is_place_among(&places[i + 1..], *place) {
            return true;
        }
    }
    false
}

/// Whether a key has this name.
fn is_key_name(keys: &[IndexDef], name: &[u8]) -> bool
    ensures { result ≡ list_any (λ key. same_name name.now key.name) keys.now }
{
    keys.iter()
        .any(|key| is_same_name(name, key.name.as_slice()))
}

/// Whether the name is PRIMARY, or one of these, or that of a key.
fn is_taken(name: &[u8], taken: &[Blob], keys: &[IndexDef]) -> bool
    ensures { result ≡ takes name.now taken.now keys.now }
{
    is_same_name(name, b"PRIMARY") || is_among(taken, name) || is_key_name(keys, name)
}

/// The places of these columns, or 1072.
fn places_of(alloc: Global, columns: &[ColumnDef], names: &[Blob]) -> Result<Blob, Refused>
    requires few { length columns.now ≤ 255 }
    ensures answers { Answers result (places_in columns.now names.now) }
    ensures count { IfOk result (λ places. length places ≡ length names.now) }
{
    let mut places = Vec::new(alloc);
    for name in names {
        let Some(place) = place_in(columns, name.as_slice()) else {
            return Err(Refused::Sql(1072));
        };
        match places.push(place as u8) {
            Ok(()) => {}
            Err(e) => return Err(AllocError::from(e).into()),
        }
    }
    Ok(Blob::from_vec(places))
}

/// A key over these columns, beside these keys, or the first of its refusals.
pub(crate) fn key_of(
    alloc: Global,
    columns: &[ColumnDef],
    has_primary: bool,
    secondary: &[IndexDef],
    taken: &[Blob],
    key: &KeyText,
) -> Result<IndexDef, Refused>
    requires few { length columns.now ≤ 255 }
    ensures { Answers result (checked_key columns.now has_primary secondary.now taken.now key.now) }
{
    if !key.primary && secondary.len() >= 16 {
        return Err(Refused::Sql(1069));
    }
    if !key.primary && is_taken(key.name.as_slice(), taken, secondary) {
        return Err(Refused::Sql(1061));
    }
    if key.primary && has_primary {
        return Err(Refused::Sql(1068));
    }
    if key.columns.len() > 16 {
        return Err(Refused::Sql(1070));
    }
    let places = places_of(alloc, columns, key.columns.as_slice())?;
    if has_repeat(places.as_slice()) {
        return Err(Refused::Sql(1060));
    }
    if width_of(columns, places.as_slice()) > 767 {
        return Err(Refused::Sql(1071));
    }
    if key.comment.len() > 1024 || key.comment.as_slice() == b"__system__".as_slice() {
        return Err(Refused::Sql(1064));
    }
    Ok(IndexDef {
        name: key.name.copy(alloc)?,
        columns: places,
        unique: key.unique,
        comment: key.comment.copy(alloc)?,
    })
}

/// The primary key, which is the hidden one of a table without any.
pub(crate) fn key_or_hidden(alloc: Global, primary: Option<IndexDef>) -> IndexDef
    ensures { result ≡ option_map_or (λ key. key) primary hidden }
{
    match primary {
        Some(key) => key,
        None => IndexDef {
            name: Blob::from_vec(Vec::new(alloc)),
            columns: Blob::from_vec(Vec::new(alloc)),
            unique: true,
            comment: Blob::from_vec(Vec::new(alloc)),
        },
    }
}

/// The keys of a definition.
#[derive(Drop)]
pub(crate) struct Keys {
    pub(crate) primary: Option<IndexDef>,
    pub(crate) secondary: IndexList,
}

impl Keys {
    /// These keys and one more, or the first of its refusals.
    fn with_key(self, alloc: Global, columns: &[ColumnDef], key: &KeyText) -> Result<Keys, Refused>
        requires few { length columns.now ≤ 255 }
        ensures { SaysKeys result (and_key columns.now (said_keys self) key.now) }
    {
        let def = key_of(
            alloc,
            columns,
            self.primary.is_some(),
            self.secondary.as_slice(),
            &[],
            key,
        )?;
        let mut keys = self;
        if key.primary {
            keys.primary = Some(def);
        } else {
            keys.secondary.push(def)?;
        }
        Ok(keys)
    }
}

/// The keys in the order of the text, or their first refusal.
pub(crate) fn keys_of(
    alloc: Global,
    columns: &[ColumnDef],
    written: &[KeyText],
) -> Result<Keys, Refused>
    requires few { length columns.now ≤ 255 }
    ensures { SaysKeys result (in_turn (and_key columns.now) no_keys written.now) }
{
    let mut keys = Keys {
        primary: None,
        secondary: IndexList::new(alloc),
    };
    for key in written {
        keys = keys.with_key(alloc, columns, key)?;
    }
    Ok(keys)
}
