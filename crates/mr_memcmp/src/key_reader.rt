//! A reader of the columns of a key, one behind the other.

ghost use Rattle.std.specs.Prelude.{◌≡◌, length};
ghost use Rattle.std.specs.Int.{w32, w64};
ghost use Rattle.mr_memcmp.specs.Reading.{number_read, field_read};
ghost use Rattle.mr_memcmp.specs.KeyState.{GivesIndex, GivesField};
ghost use Rattle.mr_memcmp.specs.Kept.{TakesColumn, LeavesKey};

use crate::full::full_at;
use crate::kept::kept_at;
use crate::number::{u32_at, u64_at};
use mr_base::Malformed;
use mr_pieces::BytesLeft;
use mr_types::{ColumnType, FieldRef};
use std::marker::Model;

/// A column, and what is left of the key and of the unpack data.
fn field_at<'a>(
    column: ColumnType,
    key: &'a [u8],
    unpack: &'a [u8],
) -> Result<(FieldRef<'a>, &'a [u8], &'a [u8]), BytesLeft>
    ensures reads { TakesColumn column.kind result (field_read column key.now unpack.now) }
    ensures within { LeavesKey key.now result }
{
    let (kept, rest) = kept_at(column, key)?;
    match full_at(column.kind, kept, unpack) {
        Ok((field, more)) => Ok((field, rest, more)),
        Err(_) => Err(key.len()),
    }
}

/// Reads a key and the unpack data beside it: first the index number, then column by column.
#[derive(Drop)]
pub struct KeyReader<'a> {
    total: usize,
    left: &'a [u8],
    unpack: &'a [u8],
}

impl<'a> Model for KeyReader<'a> {
    ghost use Rattle.std.specs.Prelude.{length, ◌≤◌};
    ghost use Rattle.mr_memcmp.specs.KeyState.{KeyState};

    ghost Value = { KeyState };

    ghost view = { λ r. record { total = r.total; left = r.left.now; unpack = r.unpack.now } };

    ghost invariant = { λ r. length r.left.now ≤ r.total };
}

impl<'a> KeyReader<'a> {
    /// A reader at the beginning of a key. The unpack data are those of the key's texts, in the
    /// key's order, and what may stand behind them.
    pub fn new(key: &'a [u8], unpack: &'a [u8]) -> KeyReader<'a>
        ensures { result ≡ record { total = length key.now; left = key.now; unpack = unpack.now } }
    {
        KeyReader {
            total: key.len(),
            left: key,
            unpack,
        }
    }

    /// The index number, which stands first. After an error the reader stays.
    pub fn index(&mut self) -> Result<u32, Malformed>
        ensures { GivesIndex self.old self.new result (number_read w32 self.old.left) }
    {
        let key: &'a [u8] = self.left;
        match u32_at(key) {
            Ok((index, rest)) => {
                self.left = rest;
                Ok(index)
            }
            Err(left) => Err(Malformed((self.total - left) as u64)),
        }
    }

    /// The next column. An error says the first offending place in the key; an offence in the
    /// unpack data counts as one at the column's first byte. After an error the reader stays.
    pub fn field(&mut self, column: &ColumnType) -> Result<FieldRef<'a>, Malformed>
        ensures { GivesField column.now.kind self.old self.new result (field_read column.now self.old.left self.old.unpack) }
    {
        let key: &'a [u8] = self.left;
        let unpack: &'a [u8] = self.unpack;
        match field_at(*column, key, unpack) {
            Ok((field, rest, more)) => {
                self.left = rest;
                self.unpack = more;
                Ok(field)
            }
            Err(left) => Err(Malformed((self.total - left) as u64)),
        }
    }

    /// The hidden number, eight bytes, which stands behind the columns where the table has no
    /// primary key. After an error the reader stays.
    pub fn hidden(&mut self) -> Result<u64, Malformed>
        ensures { GivesIndex self.old self.new result (number_read w64 self.old.left) }
    {
        let key: &'a [u8] = self.left;
        match u64_at(key) {
            Ok((number, rest)) => {
                self.left = rest;
                Ok(number)
            }
            Err(left) => Err(Malformed((self.total - left) as u64)),
        }
    }

    /// What is left of the key: nothing behind a whole one.
    pub fn key_rest(&self) -> &'a [u8]
        ensures { result.now ≡ self.now.left }
    {
        self.left
    }

    /// What the columns so far haven't used of the unpack data.
    pub fn unpack_rest(&self) -> &'a [u8]
        ensures { result.now ≡ self.now.unpack }
    {
        self.unpack
    }
}
