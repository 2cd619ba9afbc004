//! A row that is walked over, in its key and in its value.

ghost use Rattle.std.specs.Prelude.{◌≡◌, ◌+◌, length, pos};
ghost use Rattle.mr_types.specs.declared.kind.Kind.{Kind};
ghost use Rattle.mr_types.specs.declared.value.Value.TheVariants.{Number as ANumber};
ghost use Rattle.mr_types.specs.FieldValues.{field_value};
ghost use Rattle.mr_types.specs.Values.{is_equal};
ghost use Rattle.mr_types.specs.Rows.{is_hidden};
ghost use Rattle.mr_rowval.specs.RowValue.{value_read, row_read, is_stamp_of};
ghost use Rattle.mr_rowval.specs.Walking.{kind_at, value_at};
ghost use Rattle.mr_rowval.specs.Decoded.{IsDecoded, fields_in, TakesParts};
ghost use Rattle.mr_rowval.specs.Parts.{WalksRow, WalksEntry};

use crate::fields::{plain_field, read_to};
use crate::key::{held_field, is_in, key_at, unpack_at, wanted_at};
use crate::nulls::{nullable_count, nulls_at};
use mr_base::Malformed;
use mr_pieces::BytesLeft;
use mr_types::{ColumnDef, FieldRef, TableDef};
use std::marker::Model;

/// Goes over a value from the null bits on: where the unpack data begin, and the columns behind
/// them.
fn parts_at<'a>(
    columns: &[ColumnDef],
    places: &[u8],
    key: &'a [u8],
    nulls: &'a [u8],
) -> Result<(&'a [u8], &'a [u8]), BytesLeft>
    ensures { TakesParts columns.now places.now key.now nulls.now result }
{
    let unpack = nulls_at(nullable_count(columns), nulls)?;
    let plain = unpack_at(columns, places, key, unpack)?;
    match read_to(columns, places, columns.len(), nulls, plain) {
        Err(left) => Err(left),
        Ok((_, rest)) => {
            if rest.len() > 0 {
                return Err(rest.len());
            }
            Ok((unpack, plain))
        }
    }
}

/// The column at a place of a row that was read before.
fn field_of<'a>(
    columns: &[ColumnDef],
    places: &[u8],
    key: &'a [u8],
    nulls: &'a [u8],
    unpack: &'a [u8],
    plain: &'a [u8],
    place: usize,
) -> FieldRef<'a>
    requires { IsDecoded columns.now places.now key.now nulls.now unpack.now plain.now }
    ensures { field_value (kind_at columns.now place) result ≡ value_at (fields_in columns.now places.now key.now nulls.now unpack.now plain.now) place }
{
    if place >= columns.len() {
        return FieldRef::Null;
    }
    if is_in(places, place) {
        held_field(columns, places, key, unpack, place)
    } else {
        plain_field(columns, places, place, nulls, plain)
    }
}

/// Whether the rows of a table have hidden numbers.
pub fn is_hidden(def: &TableDef) -> bool
    ensures { result ≡ is_hidden def.now }
{
    match def.primary.columns.as_slice() {
        [] => true,
        [_, ..] => false,
    }
}

/// Whether a field is the number of a stamp.
fn is_stamp(field: &FieldRef<'_>, stamp: u64) -> bool
    ensures { (kind : Kind) → result ≡ is_equal (field_value kind field.now) (ANumber (pos stamp)) }
{
    match field {
        FieldRef::Number(number) => !(*number < stamp as i128 || (stamp as i128) < *number),
        FieldRef::Null | FieldRef::Slice(_) | FieldRef::Pieces(_) => false,
    }
}

/// A row with its parts as slices. Contracts see its definition, the row, and the parts.
#[derive(Drop)]
pub struct Walked<'a> {
    pub def: &'a TableDef,
    pub key: &'a [u8],
    pub nulls: &'a [u8],
    pub unpack: &'a [u8],
    pub plain: &'a [u8],
    pub hidden: Option<u64>,
    pub stamp: Option<u64>,
}

impl<'a> Model for Walked<'a> {
    ghost use Rattle.mr_rowval.specs.Decoded.{IsDecoded, fields_in};
    ghost use Rattle.mr_rowval.specs.Parts.{Walk};

    ghost Value = { Walk };

    ghost view = { λ r. record { def = r.def.now; body = r.key.now; nulls = r.nulls.now; unpack = r.unpack.now; plain = r.plain.now; row = record { hidden = r.hidden; stamp = r.stamp; fields = fields_in r.def.now.columns r.def.now.primary.columns r.key.now r.nulls.now r.unpack.now r.plain.now } } };

    ghost invariant = { λ r. IsDecoded r.def.now.columns r.def.now.primary.columns r.key.now r.nulls.now r.unpack.now r.plain.now };
}

/// The row of these bytes behind a key's index number and of this value, whatever its stamp is.
fn row_at<'a>(
    def: &'a TableDef,
    key: &'a [u8],
    hidden: Option<u64>,
    value: &'a [u8],
) -> Result<Walked<'a>, BytesLeft>
    ensures { WalksRow def.now key.now value.now result (value_read def.now key.now hidden value.now) }
{
    let (stamp, nulls) = wanted_at(def.ttl.is_some(), value)?;
    let columns = def.columns.as_slice();
    let places = def.primary.columns.as_slice();
    let (unpack, plain) = parts_at(columns, places, key, nulls)?;
    Ok(Walked {
        def,
        key,
        nulls,
        unpack,
        plain,
        hidden,
        stamp,
    })
}

impl<'a> Walked<'a> {
    /// The row of a primary entry, from its key and its value. An error says the first offending
    /// place: those of the value follow those of the key. A stamp that isn't the value of its
    /// column offends once all else is in order.
    pub fn decode(
        def: &'a TableDef,
        key: &'a [u8],
        value: &'a [u8],
    ) -> Result<Walked<'a>, Malformed>
        ensures { WalksEntry def.now key.now value.now result (row_read def.now key.now value.now) }
    {
        let columns = def.columns.as_slice();
        let places = def.primary.columns.as_slice();
        let size = key.len() as u64;
        match key_at(is_hidden(def), columns, places, key) {
            Err(left) => Err(Malformed(size - left as u64)),
            Ok((body, hidden)) => match row_at(def, body, hidden, value) {
                Err(left) => Err(Malformed(size + (value.len() - left) as u64)),
                Ok(row) => {
                    if row.has_its_stamp() {
                        Ok(row)
                    } else {
                        Err(Malformed(size))
                    }
                }
            },
        }
    }

    /// The value of a column; NULL for a column that isn't there. It costs no more than one walk
    /// over the columns before it.
    pub fn field(&self, column: u8) -> FieldRef<'a>
        ensures { field_value (kind_at self.now.def.columns column) result ≡ value_at self.now.row.fields column }
    {
        self.field_at(column as usize)
    }

    /// The same for any place.
    pub fn field_at(&self, place: usize) -> FieldRef<'a>
        ensures { field_value (kind_at self.now.def.columns place) result ≡ value_at self.now.row.fields place }
    {
        let def: &'a TableDef = self.def;
        let columns = def.columns.as_slice();
        let places = def.primary.columns.as_slice();
        let (key, nulls): (&'a [u8], &'a [u8]) = (self.key, self.nulls);
        let (unpack, plain): (&'a [u8], &'a [u8]) = (self.unpack, self.plain);
        field_of(columns, places, key, nulls, unpack, plain, place)
    }

    /// Whether the stamp is the value of the column that the TTL names, if it names one.
    fn has_its_stamp(&self) -> bool
        ensures { result ≡ is_stamp_of self.now.def.ttl self.now.row }
    {
        match self.def.ttl {
            None => true,
            Some(ttl) => match ttl.column {
                None => true,
                Some(place) => match self.stamp {
                    None => false,
                    Some(stamp) => is_stamp(&self.field(place), stamp),
                },
            },
        }
    }
}
