//! One column of a key.

ghost use Rattle.std.specs.Prelude.{◌≡◌, ◌++◌, OnOk};
ghost use Rattle.byteorder.specs.Endian.{big_bytes};
ghost use Rattle.mr_memcmp.specs.Fitting.{FitsColumn, IsNumber, HasKind};
ghost use Rattle.mr_memcmp.specs.Keys.{column_bytes, number_bytes, value_bytes};

use byteorder::{BigEndian, ByteOrder};
use mr_pieces::{push_bytes, push_text};
use mr_types::{ColumnType, Kind, Value};
use std::alloc::AllocError;

/// Adds four bytes, the highest first.
pub(crate) fn push_u32(out: &mut Vec<u8>, number: u32) -> Result<(), AllocError>
    ensures { OnOk result (out.new.items ≡ out.old.items ++ big_bytes 4 number) }
{
    let mut bytes = [0; 4];
    BigEndian::write_u32(&mut bytes, number);
    out.extend_from_slice(&bytes)?;
    Ok(())
}

/// Adds eight bytes, the highest first.
pub(crate) fn push_u64(out: &mut Vec<u8>, number: u64) -> Result<(), AllocError>
    ensures { OnOk result (out.new.items ≡ out.old.items ++ big_bytes 8 number) }
{
    let mut bytes = [0; 8];
    BigEndian::write_u64(&mut bytes, number);
    out.extend_from_slice(&bytes)?;
    Ok(())
}

fn push_number(out: &mut Vec<u8>, kind: Kind, number: i128) -> Result<(), AllocError>
    requires { IsNumber kind number }
    ensures { OnOk result (out.new.items ≡ out.old.items ++ number_bytes kind number) }
{
    match kind {
        Kind::Int => push_u32(out, (number + 0x8000_0000) as u32),
        Kind::IntUnsigned => push_u32(out, number as u32),
        Kind::BigInt => push_u64(out, (number + 0x8000_0000_0000_0000) as u64),
        Kind::BigIntUnsigned => push_u64(out, number as u64),
        Kind::VarChar(..) => Ok(()),
        Kind::VarBinary(_) => Ok(()),
    }
}

fn push_value(out: &mut Vec<u8>, kind: Kind, value: &Value) -> Result<(), AllocError>
    requires { HasKind kind value.now }
    ensures { OnOk result (out.new.items ≡ out.old.items ++ value_bytes kind value.now) }
{
    match value {
        Value::Null => Ok(()),
        Value::Number(number) => push_number(out, kind, *number),
        Value::Text(text) => match kind {
            Kind::VarChar(_, collation) => push_text(out, collation, text.as_slice()),
            _ => Ok(()),
        },
        Value::Bytes(bytes) => push_bytes(out, bytes.as_slice()),
    }
}

/// Adds the bytes of a value in a column.
#[tactic(auto, unfolding(crate::specs::Keys::column_bytes))]
pub(crate) fn push_column(
    out: &mut Vec<u8>,
    column: ColumnType,
    value: &Value,
) -> Result<(), AllocError>
    requires { FitsColumn column value.now }
    ensures { OnOk result (out.new.items ≡ out.old.items ++ column_bytes column value.now) }
{
    if !column.nullable {
        return push_value(out, column.kind, value);
    }
    match value {
        Value::Null => {
            out.push(0)?;
            Ok(())
        }
        _ => {
            out.push(1)?;
            push_value(out, column.kind, value)
        }
    }
}
