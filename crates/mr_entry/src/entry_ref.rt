//! An entry of a secondary key that is read where it lies.

ghost use Rattle.std.specs.Prelude.{◌≡◌, ◌+◌, ◌<◌, ◌++◌, OnOk, length, pos};
ghost use Rattle.mr_types.specs.declared.kind.Kind.{Kind};
ghost use Rattle.mr_types.specs.declared.value.Value.TheVariants.{Number as ANumber};
ghost use Rattle.mr_types.specs.FieldValues.{field_value};
ghost use Rattle.mr_types.specs.Values.{is_equal};
ghost use Rattle.mr_rowval.specs.KeyParts.{found, is_in};
ghost use Rattle.mr_rowval.specs.Walking.{kind_at};
ghost use Rattle.mr_entry.specs.Held.{forms_held, is_ttl_stamp, entry_held, TakesEntry, GivesEntry};
ghost use Rattle.mr_entry.specs.Primary.{primary_key_held};

use crate::primary::{are_bytes, push_number, push_parts};
use crate::rows::forms_at;
use mr_base::Malformed;
use mr_pieces::BytesLeft;
use mr_rowval::{held_field, is_hidden, is_in, key_at, push_stamp};
use mr_types::{FieldRef, TableDef};
use std::alloc::AllocError;
use std::marker::Model;

/// An entry of a secondary key, which borrows its key and its value. Contracts see the definition,
/// the columns of its key, their values, the hidden number and the stamp.
#[derive(Drop)]
pub struct EntryRef<'a> {
    def: &'a TableDef,
    places: &'a [u8],
    body: &'a [u8],
    unpack: &'a [u8],
    hidden: Option<u64>,
    stamp: Option<u64>,
}

impl<'a> Model for EntryRef<'a> {
    ghost use Rattle.std.specs.Prelude.{◌≡◌, [], Ok};
    ghost use Rattle.mr_rowval.specs.KeyParts.{parts_full};
    ghost use Rattle.mr_rowval.specs.Decoded.{held_in};
    ghost use Rattle.mr_entry.specs.Held.{HeldEntry};

    ghost Value = { HeldEntry };

    ghost view = { λ e. record { def = e.def.now; places = e.places.now; hidden = e.hidden; stamp = e.stamp; held = held_in e.def.now.columns e.places.now e.body.now e.unpack.now } };

    ghost invariant = { λ e. parts_full e.def.now.columns e.places.now e.body.now e.unpack.now ≡ Ok (held_in e.def.now.columns e.places.now e.body.now e.unpack.now, []) };
}

/// Whether a field is the number of a stamp.
fn is_stamp_field(field: &FieldRef<'_>, stamp: u64) -> bool
    ensures { (kind : Kind) → result ≡ is_equal (field_value kind field.now) (ANumber (pos stamp)) }
{
    match field {
        FieldRef::Number(number) => !(*number < stamp as i128 || (stamp as i128) < *number),
        FieldRef::Null | FieldRef::Slice(_) | FieldRef::Pieces(_) => false,
    }
}

/// The entry of these bytes behind a key's index number and of this value, whatever its stamp is.
fn entry_at<'a>(
    def: &'a TableDef,
    places: &'a [u8],
    body: &'a [u8],
    hidden: Option<u64>,
    value: &'a [u8],
) -> Result<EntryRef<'a>, BytesLeft>
    ensures { TakesEntry value.now result (forms_held def.now places.now body.now hidden value.now) }
{
    let columns = def.columns.as_slice();
    let (stamp, unpack) = forms_at(def.ttl.is_some(), columns, places, body, value)?;
    Ok(EntryRef {
        def,
        places,
        body,
        unpack,
        hidden,
        stamp,
    })
}

impl<'a> EntryRef<'a> {
    /// The entry of a key and a value. `places` are the columns of its key, as they are computed
    /// once for a table and an index. An error says the first offending place: those of the value
    /// follow those of the key. Where the key holds the column that the TTL names, a stamp that
    /// isn't its value offends once all else is in order.
    pub fn decode(
        def: &'a TableDef,
        places: &'a [u8],
        key: &'a [u8],
        value: &'a [u8],
    ) -> Result<EntryRef<'a>, Malformed>
        ensures { GivesEntry (length key.now + length value.now) result (entry_held def.now places.now key.now value.now) }
    {
        let size = key.len() as u64;
        match key_at(is_hidden(def), def.columns.as_slice(), places, key) {
            Err(left) => Err(Malformed(size - left as u64)),
            Ok((body, hidden)) => match entry_at(def, places, body, hidden, value) {
                Err(left) => Err(Malformed(size + (value.len() - left) as u64)),
                Ok(entry) => {
                    if entry.has_its_stamp() {
                        Ok(entry)
                    } else {
                        Err(Malformed(size))
                    }
                }
            },
        }
    }

    /// The value of a column, byte for byte; NULL for a column that the key doesn't hold. It costs
    /// no more than one walk over the key.
    pub fn field(&self, column: u8) -> FieldRef<'a>
        ensures { field_value (kind_at self.now.def.columns column) result ≡ found self.now.held column }
    {
        let def: &'a TableDef = self.def;
        let places: &'a [u8] = self.places;
        let (body, unpack): (&'a [u8], &'a [u8]) = (self.body, self.unpack);
        held_field(
            def.columns.as_slice(),
            places,
            body,
            unpack,
            column as usize,
        )
    }

    /// Whether the key holds a column.
    pub fn holds(&self, column: u8) -> bool
        ensures { result ≡ is_in self.now.places column }
    {
        is_in(self.places, column as usize)
    }

    /// The hidden number, which is there where the table has no primary key.
    pub fn hidden(&self) -> Option<u64>
        ensures { result ≡ self.now.hidden }
    {
        self.hidden
    }

    /// The stamp, which is there where the table has a TTL.
    pub fn stamp(&self) -> Option<u64>
        ensures { result ≡ self.now.stamp }
    {
        self.stamp
    }

    /// Whether the stamp is the value of the column that the TTL names, if the key holds it.
    fn has_its_stamp(&self) -> bool
        ensures { result ≡ is_ttl_stamp self.now self.now.def.ttl }
    {
        match self.def.ttl {
            None => true,
            Some(ttl) => match ttl.column {
                None => true,
                Some(place) => {
                    if !self.holds(place) {
                        return true;
                    }
                    match self.stamp {
                        None => false,
                        Some(stamp) => is_stamp_field(&self.field(place), stamp),
                    }
                }
            },
        }
    }
}

/// Adds to `out` the primary key of the row whose entry this is, behind the number of that index:
/// the columns, as their bytes stand in the entry's key, and the hidden number. A column that the
/// entry doesn't hold is NULL. It takes no memory but that of `out`.
pub fn primary_key_of_entry(
    entry: &EntryRef<'_>,
    number: u32,
    out: &mut Vec<u8>,
) -> Result<(), AllocError>
    ensures { OnOk result (out.new.items ≡ out.old.items ++ primary_key_held number entry.now) }
{
    are_bytes(entry.body);
    are_bytes(entry.unpack);
    push_number(out, number)?;
    push_parts(
        out,
        entry.def.columns.as_slice(),
        entry.places,
        entry.body,
        entry.def.primary.columns.as_slice(),
    )?;
    push_stamp(out, entry.hidden)?;
    Ok(())
}
