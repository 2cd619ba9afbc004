//! Reading a record.
ghost use Rattle.std.specs.Prelude.{◌≡◌, ◌≤◌, length, IfOk, IfErr, Ok};
ghost use Rattle.mr_wal.specs.declared.record.WalBody.TheVariants.{Decided};
ghost use Rattle.mr_wal.specs.Fields.{number_given};
ghost use Rattle.mr_wal.specs.EngineLog.{sequence_in, operations_in, batch_in, ended, prepare_in, plain_in, body_in, record_in, read_record as record_of, record_bytes};
ghost use Rattle.mr_wal.specs.Fitting.{RecordFits};
ghost use Rattle.mr_wal.specs.Given.{BatchGiven, BodyGiven, RecordGiven, IsAnswer, ends};

use crate::fields::{BytesLeft, u32_in, u64_in};
use crate::operation::{Batch, copy_operation, operation_of};
use crate::record::{WalBody, WalRecord};
use crate::stop::ReadStop;
use mr_base::DefAnswer;
use sqlite_items::Items;
use std::alloc::Global;

/// A sequence number, which is below 2^63.
fn sequence_of(bytes: &[u8]) -> Result<(u64, &[u8]), BytesLeft>
    ensures { number_given result ≡ sequence_in bytes.now }
{
    let (number, rest) = u64_in(bytes)?;
    if number >= 0x8000_0000_0000_0000 {
        return Err(bytes.len());
    }
    Ok((number, rest))
}

/// So many operations.
fn read_operations(alloc: Global, count: u32, bytes: &[u8]) -> Result<(Batch, &[u8]), ReadStop>
    ensures { BatchGiven result (operations_in count bytes.now) }
{
    let mut batch = Items::new(alloc);
    let mut rest = bytes;
    'reading: for i in 0..count {
        let (lent, behind) = match operation_of(rest) {
            Ok(read) => read,
            Err(left) => return Err(ReadStop::Left(left)),
        };
        let Ok(operation) = copy_operation(alloc, lent) else {
            return Err(ReadStop::Memory);
        };
        match batch.push(operation) {
            Ok(()) => {}
            Err(_) => return Err(ReadStop::Memory),
        }
        rest = behind;
    }
    Ok((batch, rest))
}

fn read_batch(alloc: Global, bytes: &[u8]) -> Result<(Batch, &[u8]), ReadStop>
    ensures { BatchGiven result (batch_in bytes.now) }
{
    match u32_in(bytes) {
        Ok((count, rest)) => read_operations(alloc, count, rest),
        Err(left) => Err(ReadStop::Left(left)),
    }
}

/// Nothing stands behind.
fn end_of(bytes: &[u8]) -> Result<(), BytesLeft>
    ensures { ends result bytes.now }
{
    if bytes.is_empty() {
        Ok(())
    } else {
        Err(bytes.len())
    }
}

fn read_prepare(alloc: Global, bytes: &[u8]) -> Result<WalBody, ReadStop>
    ensures { BodyGiven result (prepare_in bytes.now) }
{
    let (k, rest) = match u64_in(bytes) {
        Ok(read) => read,
        Err(left) => return Err(ReadStop::Left(left)),
    };
    let (sequence, rest) = match sequence_of(rest) {
        Ok(read) => read,
        Err(left) => return Err(ReadStop::Left(left)),
    };
    let (batch, rest) = match read_batch(alloc, rest) {
        Ok(read) => read,
        Err(stop) => return Err(stop),
    };
    match end_of(rest) {
        Ok(()) => Ok(WalBody::Prepare { k, sequence, batch }),
        Err(left) => Err(ReadStop::Left(left)),
    }
}

fn read_plain(alloc: Global, bytes: &[u8]) -> Result<WalBody, ReadStop>
    ensures { BodyGiven result (plain_in bytes.now) }
{
    let (sequence, rest) = match sequence_of(bytes) {
        Ok(read) => read,
        Err(left) => return Err(ReadStop::Left(left)),
    };
    let (batch, rest) = match read_batch(alloc, rest) {
        Ok(read) => read,
        Err(stop) => return Err(stop),
    };
    match end_of(rest) {
        Ok(()) => Ok(WalBody::Plain { sequence, batch }),
        Err(left) => Err(ReadStop::Left(left)),
    }
}

fn read_decided(bytes: &[u8]) -> Result<WalBody, ReadStop>
    ensures { BodyGiven result (ended Decided bytes.now) }
{
    match end_of(bytes) {
        Ok(()) => Ok(WalBody::Decided),
        Err(left) => Err(ReadStop::Left(left)),
    }
}

fn read_body(alloc: Global, bytes: &[u8]) -> Result<WalBody, ReadStop>
    ensures { BodyGiven result (body_in bytes.now) }
{
    match bytes {
        [1, rest @ ..] => read_prepare(alloc, rest),
        [2, rest @ ..] => read_plain(alloc, rest),
        [3, rest @ ..] => read_decided(rest),
        _ => Err(ReadStop::Left(bytes.len())),
    }
}

fn read_whole(alloc: Global, bytes: &[u8]) -> Result<WalRecord, ReadStop>
    ensures { RecordGiven result (record_in bytes.now) }
{
    match bytes {
        [verdict @ 0..=2, rest @ ..] => match read_body(alloc, rest) {
            Ok(body) => Ok(WalRecord {
                verdict: *verdict,
                body,
            }),
            Err(stop) => Err(stop),
        },
        _ => Err(ReadStop::Left(bytes.len())),
    }
}

/// The record that the bytes are, or the first offending place. Takes memory.
pub fn read_record(alloc: Global, bytes: &[u8]) -> Result<WalRecord, DefAnswer>
    ensures ok { IfOk result (λ r. record_of bytes.now ≡ Ok r) }
    ensures err { IfErr result (IsAnswer (record_of bytes.now)) }
    ensures form { IfOk result (λ r. bytes.now ≡ record_bytes r) }
    ensures fits { IfOk result RecordFits }
{
    match read_whole(alloc, bytes) {
        Ok(read) => Ok(read),
        Err(ReadStop::Memory) => Err(DefAnswer::Memory),
        Err(ReadStop::Left(left)) => Err(DefAnswer::Malformed(
            bytes.len().saturating_sub(left) as u64,
        )),
    }
}
