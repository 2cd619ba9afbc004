//! Writing a record.
//!
//!     record    verdict u8: 0, 1 or 2; kind u8, and:
//!     kind 1    prepare: commit number u64, sequence number u64 below 2^63, batch
//!     kind 2    plain: sequence number u64 below 2^63, batch
//!     kind 3    decided
//!     batch     count u32, operations
//!
//! Numbers are big-endian. A plain record with sequence number 5 that puts `v` for key `k` of family 1, where no prepare is pending:
//!
//!     00 02   00 00 00 00 00 00 00 05   00 00 00 01   00 00 00 01   01   00 00 00 01 6B   00 00 00 01 76
ghost use Rattle.std.specs.Prelude.{◌≡◌, ◌<◌, ◌^◌, ◌++◌, ◌∷◌, [], length, take, OnOk, IfOk, Ok};
ghost use Rattle.std.specs.List.{AllByRecursion};
ghost use Rattle.byteorder.specs.Endian.{big_bytes};
ghost use Rattle.mr_wal.specs.Operations.{sized, put_bytes, operation_bytes, kind_byte};
ghost use Rattle.mr_wal.specs.EngineLog.{operations_bytes, batch_bytes, body_bytes, record_bytes, read_record as record_of};
ghost use Rattle.mr_wal.specs.Fitting.{PutFits, OperationFits, BatchFits, BodyFieldsFit, FieldsFit, RecordFits};

use crate::operation::{Batch, Operation};
use crate::record::{WalBody, WalRecord};
use byteorder::{BigEndian, ByteOrder};
use mr_base::{Blob, Memory};
use std::alloc::Global;

fn write_bytes(out: &mut Vec<u8>, bytes: &[u8]) -> Result<(), Memory>
    ensures { OnOk result (out.new.items ≡ out.old.items ++ bytes.now) }
{
    out.extend_from_slice(bytes)?;
    Ok(())
}

fn write_u32(out: &mut Vec<u8>, number: u32) -> Result<(), Memory>
    ensures { OnOk result (out.new.items ≡ out.old.items ++ big_bytes 4 number) }
{
    let mut bytes = [0; 4];
    BigEndian::write_u32(&mut bytes, number);
    write_bytes(out, &bytes)
}

fn write_u64(out: &mut Vec<u8>, number: u64) -> Result<(), Memory>
    ensures { OnOk result (out.new.items ≡ out.old.items ++ big_bytes 8 number) }
{
    let mut bytes = [0; 8];
    BigEndian::write_u64(&mut bytes, number);
    write_bytes(out, &bytes)
}

/// A length, which has to have a place in its field.
fn write_length(out: &mut Vec<u8>, length: usize) -> Result<(), Memory>
    ensures written { OnOk result (out.new.items ≡ out.old.items ++ big_bytes 4 length) }
    ensures fits { OnOk result (length < 2 ^ 32) }
{
    match u32::try_from(length) {
        Ok(number) => write_u32(out, number),
        Err(_) => Err(Memory),
    }
}

fn write_sized(out: &mut Vec<u8>, bytes: &[u8]) -> Result<(), Memory>
    ensures written { OnOk result (out.new.items ≡ out.old.items ++ sized bytes.now) }
    ensures fits { OnOk result (length bytes.now < 2 ^ 32) }
{
    write_length(out, bytes.len())?;
    write_bytes(out, bytes)
}

fn write_put(out: &mut Vec<u8>, put: &Option<Blob>) -> Result<(), Memory>
    ensures written { OnOk result (out.new.items ≡ out.old.items ++ put_bytes put.now) }
    ensures fits { OnOk result (PutFits put.now) }
{
    match put {
        Some(value) => write_sized(out, value.as_slice()),
        None => Ok(()),
    }
}

fn write_kind(out: &mut Vec<u8>, is_put: bool) -> Result<(), Memory>
    ensures { OnOk result (out.new.items ≡ out.old.items ++ kind_byte is_put ∷ []) }
{
    write_bytes(out, &[if is_put { 1 } else { 2 }])
}

fn write_operation(out: &mut Vec<u8>, operation: &Operation) -> Result<(), Memory>
    ensures written { OnOk result (out.new.items ≡ out.old.items ++ operation_bytes operation.now) }
    ensures fits { OnOk result (OperationFits operation.now) }
{
    write_u32(out, operation.family)?;
    write_kind(out, operation.put.is_some())?;
    write_sized(out, operation.key.as_slice())?;
    write_put(out, &operation.put)
}

fn write_operations(out: &mut Vec<u8>, operations: &[Operation]) -> Result<(), Memory>
    ensures written { OnOk result (out.new.items ≡ out.old.items ++ operations_bytes operations.now) }
    ensures fits { OnOk result (AllByRecursion OperationFits operations.now) }
{
    'writing: for operation in operations {
        write_operation(out, operation)?;
    }
    Ok(())
}

fn write_batch(out: &mut Vec<u8>, batch: &Batch) -> Result<(), Memory>
    ensures written { OnOk result (out.new.items ≡ out.old.items ++ batch_bytes batch.now) }
    ensures fits { OnOk result (BatchFits batch.now) }
{
    write_length(out, batch.len())?;
    write_operations(out, batch.as_slice())
}

fn write_plain(out: &mut Vec<u8>, sequence: u64, batch: &Batch) -> Result<(), Memory>
    ensures written { OnOk result (out.new.items ≡ out.old.items ++ (big_bytes 8 sequence ++ batch_bytes batch.now)) }
    ensures fits { OnOk result ((sequence < 2 ^ 64) × BatchFits batch.now) }
{
    write_u64(out, sequence)?;
    write_batch(out, batch)
}

fn write_body(out: &mut Vec<u8>, body: &WalBody) -> Result<(), Memory>
    ensures written { OnOk result (out.new.items ≡ out.old.items ++ body_bytes body.now) }
    ensures fits { OnOk result (BodyFieldsFit body.now) }
{
    match body {
        WalBody::Prepare { k, sequence, batch } => {
            write_bytes(out, &[1])?;
            write_u64(out, *k)?;
            write_plain(out, *sequence, batch)
        }
        WalBody::Plain { sequence, batch } => {
            write_bytes(out, &[2])?;
            write_plain(out, *sequence, batch)
        }
        WalBody::Decided => write_bytes(out, &[3]),
    }
}

fn write_verdict(out: &mut Vec<u8>, verdict: u8) -> Result<(), Memory>
    ensures written { OnOk result (out.new.items ≡ out.old.items ++ verdict ∷ []) }
    ensures fits { OnOk result (verdict < 2 ^ 8) }
{
    write_bytes(out, &[verdict])
}

/// The bytes of a record. Takes memory. A length of 2^32 or more is answered as want of memory.
pub fn write_record(alloc: Global, item: &WalRecord) -> Result<Blob, Memory>
    ensures written { IfOk result (λ b. b ≡ record_bytes item.now) }
    ensures fits { OnOk result (FieldsFit item.now) }
    ensures reads_back { RecordFits item.now → IfOk result (λ b. record_of b ≡ Ok item.now) }
{
    let mut out = Vec::new(alloc);
    write_verdict(&mut out, item.verdict)?;
    write_body(&mut out, &item.body)?;
    Ok(Blob::from_vec(out))
}
