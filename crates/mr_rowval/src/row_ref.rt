//! A row that is read where it lies, in its key and in its value.

ghost use Rattle.std.specs.Prelude.{◌≡◌, ◌+◌, ◌≤◌, drop, length, IfOk, Ok};
ghost use Rattle.mr_types.specs.FieldValues.{field_value};
ghost use Rattle.mr_rowval.specs.RowValue.{row_read};
ghost use Rattle.mr_rowval.specs.Walking.{kind_at, value_at};
ghost use Rattle.mr_rowval.specs.Decoded.{DecodesRow};
ghost use Rattle.mr_rowval.specs.Parts.{ArePartsOf, WalksEntry, row_in};
ghost use Rattle.mr_types.specs.declared.row.Row.{Row};

use crate::key::{held_field, is_in};
use crate::parts::{RowParts, plain_spots, spot_field};
use crate::walked::Walked;
use mr_base::Malformed;
use mr_types::{FieldRef, TableDef};
use std::marker::Model;

/// A row that lies in a key and a value, and borrows both. Contracts see its definition, the row,
/// and the key and the value.
#[derive(Drop)]
pub struct RowRef<'a> {
    def: &'a TableDef,
    key: &'a [u8],
    value: &'a [u8],
    parts: RowParts,
}

impl<'a> Model for RowRef<'a> {
    ghost use Rattle.mr_rowval.specs.Decoded.{Decoded};
    ghost use Rattle.mr_rowval.specs.Parts.{ArePartsOf, row_in};

    ghost Value = { Decoded };

    ghost view = { λ r. record { def = r.def.now; row = row_in r.def.now r.key.now r.value.now; key = r.key.now; value = r.value.now } };

    ghost invariant = { λ r. ArePartsOf r.def.now r.key.now r.value.now r.parts };
}

/// The parts of a row that was walked over.
fn parts_of(walked: &Walked<'_>, key: &[u8], value: &[u8]) -> RowParts
    ensures { WalksEntry walked.now.def key.now value.now (Ok walked.now) (row_read walked.now.def key.now value.now) → ArePartsOf walked.now.def key.now value.now result }
{
    let columns = walked.def.columns.as_slice();
    let places = walked.def.primary.columns.as_slice();
    RowParts {
        hidden: walked.hidden,
        stamp: walked.stamp,
        unpack: value.len().saturating_sub(walked.unpack.len()),
        spots: plain_spots(columns, places, walked.nulls, walked.plain, value),
    }
}

/// A column of a row without its parts, as for those behind the first 64.
fn walked_field<'a>(def: &'a TableDef, key: &'a [u8], value: &'a [u8], place: usize) -> FieldRef<'a>
    ensures { (row : Row) → row_read def.now key.now value.now ≡ Ok row → field_value (kind_at def.now.columns place) result ≡ value_at row.fields place }
{
    match Walked::decode(def, key, value) {
        Err(_) => FieldRef::Null,
        Ok(walked) => walked.field_at(place),
    }
}

fn behind(bytes: &[u8], at: usize) -> &[u8]
    requires { at ≤ length bytes.now }
    ensures { result.now ≡ drop at bytes.now }
{
    bytes.split_at(at).1
}

/// The column at a place of a row of which the parts are known.
fn field_by<'a>(
    def: &'a TableDef,
    key: &'a [u8],
    value: &'a [u8],
    parts: &RowParts,
    place: usize,
) -> FieldRef<'a>
    requires { ArePartsOf def.now key.now value.now parts.now }
    ensures { field_value (kind_at def.now.columns place) result ≡ value_at (row_in def.now key.now value.now).fields place }
{
    let columns = def.columns.as_slice();
    let places = def.primary.columns.as_slice();
    if place >= 64 || place >= columns.len() {
        return walked_field(def, key, value, place);
    }
    if is_in(places, place) {
        let body = behind(key, 4);
        let unpack = behind(value, parts.unpack);
        held_field(columns, places, body, unpack, place)
    } else {
        spot_field(columns[place].ty.kind, value, parts.spots[place])
    }
}

impl<'a> RowRef<'a> {
    /// The row of a primary entry, from its key and its value. An error says the first offending
    /// place: those of the value follow those of the key. A stamp that isn't the value of its
    /// column offends once all else is in order.
    pub fn decode(
        def: &'a TableDef,
        key: &'a [u8],
        value: &'a [u8],
    ) -> Result<RowRef<'a>, Malformed>
        ensures decodes { DecodesRow def.now (length key.now + length value.now) result (row_read def.now key.now value.now) }
        ensures same { IfOk result (λ row. (row.key ≡ key.now) × (row.value ≡ value.now)) }
    {
        match Walked::decode(def, key, value) {
            Err(malformed) => Err(malformed),
            Ok(walked) => {
                let parts = parts_of(&walked, key, value);
                Ok(RowRef {
                    def,
                    key,
                    value,
                    parts,
                })
            }
        }
    }

    /// The row of a key and a value whose parts are known: it judges nothing.
    pub fn of(def: &'a TableDef, key: &'a [u8], value: &'a [u8], parts: RowParts) -> RowRef<'a>
        requires { ArePartsOf def.now key.now value.now parts }
        ensures { result ≡ record { def = def.now; row = row_in def.now key.now value.now; key = key.now; value = value.now } }
    {
        RowRef {
            def,
            key,
            value,
            parts,
        }
    }

    /// Where the columns lie, for this key and this value alone.
    pub fn parts(&self) -> RowParts
        ensures { ArePartsOf self.now.def self.now.key self.now.value result }
    {
        self.parts
    }

    /// The value of a column; NULL for a column that isn't there. A column that isn't in the key
    /// is found at its place, without a look at those before it; one of the key costs a walk over
    /// the key.
    pub fn field(&self, column: u8) -> FieldRef<'a>
        ensures { field_value (kind_at self.now.def.columns column) result ≡ value_at self.now.row.fields column }
    {
        self.field_at(column as usize)
    }

    /// The same for any place.
    pub fn field_at(&self, place: usize) -> FieldRef<'a>
        ensures { field_value (kind_at self.now.def.columns place) result ≡ value_at self.now.row.fields place }
    {
        let def: &'a TableDef = self.def;
        let key: &'a [u8] = self.key;
        let value: &'a [u8] = self.value;
        field_by(def, key, value, &self.parts, place)
    }

    /// The stamp, which is there where the table has a TTL.
    pub fn stamp(&self) -> Option<u64>
        ensures { result ≡ self.now.row.stamp }
    {
        self.parts.stamp
    }

    /// The hidden number, which is there where the table has no primary key.
    pub fn hidden(&self) -> Option<u64>
        ensures { result ≡ self.now.row.hidden }
    {
        self.parts.hidden
    }
}
