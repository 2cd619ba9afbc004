//! Writing the edits of a record.
//!
//!     a body    its edits, one behind the other
//!     1         run added: family u32, level u8, file u64, length u64, entries u64
//!     2         run dropped: file u64
//!     3         live engine log: file u64
//!     4         binary-log place: place u64, commits u64
//!     5         next file number: u64
//!     6         last sequence number: u64
//!     7         folder format: u32
//!
//! Numbers are big-endian. The first record of a folder, of 49 bytes:
//!
//!     07 00 00 00 01   03 00 00 00 00 00 00 00 10   04 and 16 zero bytes   05 00 00 00 00 00 00 00 11   06 and 8 zero bytes
ghost use Rattle.std.specs.Prelude.{◌≡◌, ◌++◌, ◌∷◌, [], length, IfOk, OnOk, Ok};
ghost use Rattle.byteorder.specs.Endian.{big_bytes};
ghost use Rattle.mr_manifest.specs.Edits.{edit_bytes, edits_bytes, read_edits, AllFit};

use crate::edit::Edit;
use byteorder::{BigEndian, ByteOrder};
use mr_base::{Blob, Memory};
use std::alloc::Global;

fn write_bytes(out: &mut Vec<u8>, bytes: &[u8]) -> Result<(), Memory>
    ensures { OnOk result (out.new.items ≡ out.old.items ++ bytes.now) }
{
    out.extend_from_slice(bytes)?;
    Ok(())
}

fn write_u32(out: &mut Vec<u8>, number: u32) -> Result<(), Memory>
    ensures { OnOk result (out.new.items ≡ out.old.items ++ big_bytes 4 number) }
{
    let mut bytes = [0; 4];
    BigEndian::write_u32(&mut bytes, number);
    write_bytes(out, &bytes)
}

fn write_u64(out: &mut Vec<u8>, number: u64) -> Result<(), Memory>
    ensures { OnOk result (out.new.items ≡ out.old.items ++ big_bytes 8 number) }
{
    let mut bytes = [0; 8];
    BigEndian::write_u64(&mut bytes, number);
    write_bytes(out, &bytes)
}

/// A tag, and a number of eight bytes behind it.
fn write_number(out: &mut Vec<u8>, tag: u8, number: u64) -> Result<(), Memory>
    ensures { OnOk result (out.new.items ≡ out.old.items ++ (tag ∷ big_bytes 8 number)) }
{
    write_bytes(out, &[tag])?;
    write_u64(out, number)
}

/// Two numbers.
fn write_pair(out: &mut Vec<u8>, first: u64, second: u64) -> Result<(), Memory>
    ensures { OnOk result (out.new.items ≡ out.old.items ++ (big_bytes 8 first ++ big_bytes 8 second)) }
{
    write_u64(out, first)?;
    write_u64(out, second)
}

/// A level, and three numbers behind it.
fn write_sizes(
    out: &mut Vec<u8>,
    level: u8,
    file: u64,
    length: u64,
    entries: u64,
) -> Result<(), Memory>
    ensures { OnOk result (out.new.items ≡ out.old.items ++ (level ∷ (big_bytes 8 file ++ (big_bytes 8 length ++ big_bytes 8 entries)))) }
{
    write_number(out, level, file)?;
    write_pair(out, length, entries)
}

fn write_edit(out: &mut Vec<u8>, edit: &Edit) -> Result<(), Memory>
    ensures { OnOk result (out.new.items ≡ out.old.items ++ edit_bytes edit.now) }
{
    match *edit {
        Edit::RunAdded {
            family,
            level,
            file,
            length,
            entries,
        } => {
            write_bytes(out, &[1])?;
            write_u32(out, family)?;
            write_sizes(out, level, file, length, entries)
        }
        Edit::RunDropped(file) => write_number(out, 2, file),
        Edit::LiveLog(file) => write_number(out, 3, file),
        Edit::BinlogPlace { place, commits } => {
            write_bytes(out, &[4])?;
            write_pair(out, place, commits)
        }
        Edit::NextFile(file) => write_number(out, 5, file),
        Edit::LastSequence(sequence) => write_number(out, 6, sequence),
        Edit::Format(format) => {
            write_bytes(out, &[7])?;
            write_u32(out, format)
        }
    }
}

fn write_all(out: &mut Vec<u8>, edits: &[Edit]) -> Result<(), Memory>
    ensures { OnOk result (out.new.items ≡ out.old.items ++ edits_bytes edits.now) }
{
    'writing: for edit in edits {
        write_edit(out, edit)?;
    }
    Ok(())
}

/// The bytes of edits, as the body of a record. Takes memory. Edits in the format are read back.
pub fn write_edits(alloc: Global, edits: &[Edit]) -> Result<Blob, Memory>
    ensures written { IfOk result (λ b. b ≡ edits_bytes edits.now) }
    ensures reads_back { AllFit edits.now → IfOk result (λ b. read_edits b ≡ Ok edits.now) }
{
    let mut out = Vec::new(alloc);
    write_all(&mut out, edits)?;
    Ok(Blob::from_vec(out))
}
