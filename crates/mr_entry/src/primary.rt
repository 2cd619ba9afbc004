//! The columns of a primary key from another key that holds them.

ghost use Rattle.std.specs.Prelude.{◌≡◌, ◌++◌, OnOk, slice_get};
ghost use Rattle.std.specs.Option.{option_copied};
ghost use Rattle.byteorder.specs.Endian.{big_bytes};
ghost use Rattle.mr_memcmp.specs.ComeBack.{AreBytes};
ghost use Rattle.mr_rowval.specs.KeyParts.{part_kept};
ghost use Rattle.mr_entry.specs.Primary.{null_part, part_in, part_held, parts_in, SplitsPart};

use byteorder::{BigEndian, ByteOrder};
use mr_memcmp::kept_at;
use mr_pieces::BytesLeft;
use mr_rowval::is_in;
use mr_types::ColumnDef;
use sqlite_items::at;
use std::alloc::AllocError;

/// Bytes are numbers below 256.
pub(crate) fn are_bytes(bytes: &[u8])
    ensures { AreBytes bytes.now }
{}

/// The bytes of a column in front of a key, its flag among them, and what stands behind them.
fn split_part<'a>(
    column: Option<&ColumnDef>,
    key: &'a [u8],
) -> Result<(&'a [u8], &'a [u8]), BytesLeft>
    ensures { SplitsPart key.now result (part_kept (option_copied column.entry) key.now) }
{
    match column {
        None => Ok((&[], key)),
        Some(column) => {
            let (_, rest) = kept_at(column.ty, key)?;
            let (front, _) = key.split_at(key.len() - rest.len());
            Ok((front, rest))
        }
    }
}

/// The bytes of the column at a place, as they stand in a key of these columns.
fn part_in<'a>(columns: &[ColumnDef], places: &[u8], key: &'a [u8], place: usize) -> &'a [u8]
    ensures { result.now ≡ part_in columns.now places.now key.now place }
{
    let mut left = key;
    for part in places {
        match split_part(at(columns, *part as usize), left) {
            Err(_) => return &[],
            Ok((front, rest)) => {
                if *part as usize == place {
                    return front;
                }
                left = rest;
            }
        }
    }
    &[]
}

/// Adds NULL, if the column takes it.
fn push_null(out: &mut Vec<u8>, column: Option<&ColumnDef>) -> Result<(), AllocError>
    ensures { OnOk result (out.new.items ≡ out.old.items ++ null_part (option_copied column.entry)) }
{
    match column {
        None => Ok(()),
        Some(column) => {
            if column.ty.nullable {
                out.push(0)?;
            }
            Ok(())
        }
    }
}

/// Adds the column at a place; NULL where the key doesn't hold it.
fn push_part(
    out: &mut Vec<u8>,
    columns: &[ColumnDef],
    places: &[u8],
    key: &[u8],
    place: usize,
) -> Result<(), AllocError>
    ensures { OnOk result (out.new.items ≡ out.old.items ++ part_held columns.now places.now key.now place) }
{
    if !is_in(places, place) {
        return push_null(out, at(columns, place));
    }
    out.extend_from_slice(part_in(columns, places, key, place))?;
    Ok(())
}

/// Adds the columns at these places, as they stand in a key of others.
pub(crate) fn push_parts(
    out: &mut Vec<u8>,
    columns: &[ColumnDef],
    places: &[u8],
    key: &[u8],
    wanted: &[u8],
) -> Result<(), AllocError>
    ensures { OnOk result (out.new.items ≡ out.old.items ++ parts_in columns.now places.now key.now wanted.now) }
{
    for place in wanted {
        push_part(out, columns, places, key, *place as usize)?;
    }
    Ok(())
}

/// Adds the number of an index, four bytes, the highest first.
pub(crate) fn push_number(out: &mut Vec<u8>, number: u32) -> Result<(), AllocError>
    ensures { OnOk result (out.new.items ≡ out.old.items ++ big_bytes 4 number) }
{
    let mut bytes = [0; 4];
    BigEndian::write_u32(&mut bytes, number);
    out.extend_from_slice(&bytes)?;
    Ok(())
}
