//! Fields at the end of a list of bytes. Numbers are big-endian.
ghost use Rattle.std.specs.Prelude.{◌≡◌, ◌<◌, ◌^◌, ◌++◌, length, OnOk};
ghost use Rattle.byteorder.specs.Endian.{big_bytes};
ghost use Rattle.mr_run_file.specs.Format.{key_bytes};

use byteorder::{BigEndian, ByteOrder};
use mr_base::Memory;

pub fn write_bytes(out: &mut Vec<u8>, bytes: &[u8]) -> Result<(), Memory>
    ensures { OnOk result (out.new.items ≡ out.old.items ++ bytes.now) }
{
    out.extend_from_slice(bytes)?;
    Ok(())
}

pub fn write_u32(out: &mut Vec<u8>, number: u32) -> Result<(), Memory>
    ensures { OnOk result (out.new.items ≡ out.old.items ++ big_bytes 4 number) }
{
    let mut bytes = [0; 4];
    BigEndian::write_u32(&mut bytes, number);
    write_bytes(out, &bytes)
}

pub fn write_u64(out: &mut Vec<u8>, number: u64) -> Result<(), Memory>
    ensures { OnOk result (out.new.items ≡ out.old.items ++ big_bytes 8 number) }
{
    let mut bytes = [0; 8];
    BigEndian::write_u64(&mut bytes, number);
    write_bytes(out, &bytes)
}

/// A length and the key. A key of 2^32 bytes or more is answered as want of memory.
pub fn write_key(out: &mut Vec<u8>, key: &[u8]) -> Result<(), Memory>
    ensures written { OnOk result (out.new.items ≡ out.old.items ++ key_bytes key.now) }
    ensures fits { OnOk result (length key.now < 2 ^ 32) }
{
    let Ok(size) = u32::try_from(key.len()) else {
        return Err(Memory);
    };
    write_u32(out, size)?;
    write_bytes(out, key)
}
