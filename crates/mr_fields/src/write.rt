//! Fields written behind bytes. A length that has no place in its field is answered as want of memory.

ghost use Rattle.std.specs.Prelude.{◌≡◌, ◌<◌, ◌^◌, ◌++◌, ◌∷◌, [], length, OnOk};
ghost use Rattle.byteorder.specs.Endian.{big_bytes};
ghost use Rattle.mr_spec.specs.RowForm.{text16_bytes};
ghost use Rattle.mr_fields.specs.Fields.{flag_byte, name_bytes};

use byteorder::{BigEndian, ByteOrder};
use mr_base::Memory;

/// Adds these bytes.
pub fn write_bytes(out: &mut Vec<u8>, bytes: &[u8]) -> Result<(), Memory>
    ensures { OnOk result (out.new.items ≡ out.old.items ++ bytes.now) }
{
    out.extend_from_slice(bytes)?;
    Ok(())
}

/// Adds a byte.
pub fn write_byte(out: &mut Vec<u8>, byte: u8) -> Result<(), Memory>
    ensures { OnOk result (out.new.items ≡ out.old.items ++ byte ∷ []) }
{
    write_bytes(out, &[byte])
}

/// Adds 1 or 0.
pub fn write_flag(out: &mut Vec<u8>, flag: bool) -> Result<(), Memory>
    ensures { OnOk result (out.new.items ≡ out.old.items ++ flag_byte flag ∷ []) }
{
    write_byte(out, if flag { 1 } else { 0 })
}

/// Adds a number of two bytes.
pub fn write_u16(out: &mut Vec<u8>, number: u16) -> Result<(), Memory>
    ensures { OnOk result (out.new.items ≡ out.old.items ++ big_bytes 2 number) }
{
    let mut bytes = [0; 2];
    BigEndian::write_u16(&mut bytes, number);
    write_bytes(out, &bytes)
}

/// Adds a number of four bytes.
pub fn write_u32(out: &mut Vec<u8>, number: u32) -> Result<(), Memory>
    ensures { OnOk result (out.new.items ≡ out.old.items ++ big_bytes 4 number) }
{
    let mut bytes = [0; 4];
    BigEndian::write_u32(&mut bytes, number);
    write_bytes(out, &bytes)
}

/// Adds a number of eight bytes.
pub fn write_u64(out: &mut Vec<u8>, number: u64) -> Result<(), Memory>
    ensures { OnOk result (out.new.items ≡ out.old.items ++ big_bytes 8 number) }
{
    let mut bytes = [0; 8];
    BigEndian::write_u64(&mut bytes, number);
    write_bytes(out, &bytes)
}

/// Adds a count of one byte, which is below 256.
pub fn write_count(out: &mut Vec<u8>, count: usize) -> Result<(), Memory>
    ensures written { OnOk result (out.new.items ≡ out.old.items ++ count ∷ []) }
    ensures place { OnOk result (count < 2 ^ 8) }
{
    match u8::try_from(count) {
        Ok(byte) => write_byte(out, byte),
        Err(_) => Err(Memory),
    }
}

/// Adds a name of at most 255 bytes behind its length of one byte.
pub fn write_name(out: &mut Vec<u8>, name: &[u8]) -> Result<(), Memory>
    ensures written { OnOk result (out.new.items ≡ out.old.items ++ name_bytes name.now) }
    ensures place { OnOk result (length name.now < 2 ^ 8) }
{
    write_count(out, name.len())?;
    write_bytes(out, name)
}

/// Adds a text or bytes, of at most 65,535 bytes, behind their length of two bytes.
pub fn write_text16(out: &mut Vec<u8>, text: &[u8]) -> Result<(), Memory>
    ensures written { OnOk result (out.new.items ≡ out.old.items ++ text16_bytes text.now) }
    ensures place { OnOk result (length text.now < 2 ^ 16) }
{
    match u16::try_from(text.len()) {
        Ok(size) => {
            write_u16(out, size)?;
            write_bytes(out, text)
        }
        Err(_) => Err(Memory),
    }
}
