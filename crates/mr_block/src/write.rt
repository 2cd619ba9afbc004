//! Fields at the end of a list of bytes.
ghost use Rattle.std.specs.Prelude.{◌≡◌, ◌<◌, ◌^◌, ◌++◌, ◌∷◌, [], length, unwrap_or, OnOk};
ghost use Rattle.std.specs.Option.{option_map};
ghost use Rattle.byteorder.specs.Endian.{big_bytes};
ghost use Rattle.mr_iter.specs.Versions.{as_version};
ghost use Rattle.mr_block.specs.Block.{entry_bytes, kind_byte};

use byteorder::{BigEndian, ByteOrder};
use mr_base::Memory;

fn write_bytes(out: &mut Vec<u8>, bytes: &[u8]) -> Result<(), Memory>
    ensures { OnOk result (out.new.items ≡ out.old.items ++ bytes.now) }
{
    out.extend_from_slice(bytes)?;
    Ok(())
}

pub fn write_u32(out: &mut Vec<u8>, number: u32) -> Result<(), Memory>
    ensures { OnOk result (out.new.items ≡ out.old.items ++ big_bytes 4 number) }
{
    let mut bytes = [0; 4];
    BigEndian::write_u32(&mut bytes, number);
    write_bytes(out, &bytes)
}

fn write_u64(out: &mut Vec<u8>, number: u64) -> Result<(), Memory>
    ensures { OnOk result (out.new.items ≡ out.old.items ++ big_bytes 8 number) }
{
    let mut bytes = [0; 8];
    BigEndian::write_u64(&mut bytes, number);
    write_bytes(out, &bytes)
}

/// A length and so many bytes.
fn write_sized(out: &mut Vec<u8>, bytes: &[u8]) -> Result<(), Memory>
    requires { length bytes.now < 2 ^ 32 }
    ensures { OnOk result (out.new.items ≡ out.old.items ++ (big_bytes 4 (length bytes.now) ++ bytes.now)) }
{
    write_u32(out, bytes.len() as u32)?;
    write_bytes(out, bytes)
}

fn write_kind(out: &mut Vec<u8>, is_put: bool) -> Result<(), Memory>
    ensures { OnOk result (out.new.items ≡ out.old.items ++ kind_byte is_put ∷ []) }
{
    write_bytes(out, &[if is_put { 1 } else { 2 }])
}

/// An entry; `put` is None for a deletion.
pub fn write_entry(
    out: &mut Vec<u8>,
    key: &[u8],
    sequence: u64,
    put: Option<&[u8]>,
) -> Result<(), Memory>
    requires key { length key.now < 2 ^ 32 }
    requires value { length (unwrap_or (option_map (λ v. v.now) put) []) < 2 ^ 32 }
    ensures { OnOk result (out.new.items ≡ out.old.items ++ entry_bytes (as_version key.now sequence (option_map (λ v. v.now) put.entry))) }
{
    write_sized(out, key)?;
    write_u64(out, sequence)?;
    write_kind(out, put.is_some())?;
    write_sized(out, put.unwrap_or(&[]))
}
