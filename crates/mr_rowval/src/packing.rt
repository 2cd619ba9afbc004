//! Writes null bits.

ghost use Rattle.std.specs.Prelude.{◌≡◌, ◌++◌, length, IfOk, OnOk};
ghost use Rattle.mr_types.specs.Values.{is_null};
ghost use Rattle.mr_rowval.specs.NullBits.{null_flags, null_bits};
ghost use Rattle.mr_rowval.specs.Packing.{pending, IsPack, WithBit, PacksFlag};

use mr_types::{ColumnDef, Value};
use std::alloc::AllocError;

/// The bits of a byte that isn't full: how many there are, what the next one is worth, and their
/// number.
#[derive(Clone, Copy, Drop)]
pub struct Pack {
    pub used: u8,
    pub worth: u8,
    pub byte: u8,
}

fn is_null(value: &Value) -> bool
    ensures { result ≡ is_null value.now }
{
    match value {
        Value::Null => true,
        Value::Number(_) | Value::Text(_) | Value::Bytes(_) => false,
    }
}

/// The number of the bits with one more.
fn with_bit(pack: Pack, flag: bool) -> u8
    requires { IsPack pack }
    ensures { WithBit pack flag result }
{
    if flag {
        pack.byte + pack.worth
    } else {
        pack.byte
    }
}

/// One more bit, where the column takes NULL. A full byte is written.
fn push_flag(
    out: &mut Vec<u8>,
    pack: Pack,
    nullable: bool,
    is_null: bool,
) -> Result<Pack, AllocError>
    requires { IsPack pack }
    ensures pack { IfOk result IsPack }
    ensures flag { IfOk result (PacksFlag out.old.items out.new.items nullable is_null pack) }
{
    if !nullable {
        return Ok(pack);
    }
    let byte = with_bit(pack, is_null);
    if pack.used < 7 {
        return Ok(Pack {
            used: pack.used + 1,
            worth: pack.worth * 2,
            byte,
        });
    }
    out.push(byte)?;
    Ok(Pack {
        used: 0,
        worth: 1,
        byte: 0,
    })
}

/// Adds one bit per nullable column, set where the value is NULL.
pub fn push_nulls(
    out: &mut Vec<u8>,
    columns: &[ColumnDef],
    values: &[Value],
) -> Result<(), AllocError>
    requires { length columns.now ≡ length values.now }
    ensures { OnOk result (out.new.items ≡ out.old.items ++ null_bits (null_flags columns.now values.now)) }
{
    let mut pack = Pack {
        used: 0,
        worth: 1,
        byte: 0,
    };
    for (at, column) in columns.iter().enumerate() {
        pack = push_flag(out, pack, column.ty.nullable, is_null(&values[at]))?;
    }
    if pack.used > 0 {
        out.push(pack.byte)?;
    }
    Ok(())
}
