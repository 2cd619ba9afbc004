//! How long the record of a batch is.
ghost use Rattle.std.specs.Prelude.{◌≡◌, ◌+◌, ◌-◌, ◌^◌, ℕ, length, min};
ghost use Rattle.mr_wal.specs.declared.record.WalBody.TheVariants.{Prepare, Plain};
ghost use Rattle.mr_wal.specs.Operations.{put_bytes, operation_bytes};
ghost use Rattle.mr_wal.specs.EngineLog.{operations_bytes, record_bytes};

use crate::operation::{Batch, Operation};
use mr_base::Blob;

/// The bytes of a verdict, a kind, a sequence number and a count.
const AROUND: u64 = 1 + 1 + 8 + 4;

/// The bytes of a commit number.
const COMMIT: u64 = 8;

#[tactic(auto, using(crate::proofs::Lengths::put_size))]
fn put_length(put: &Option<Blob>) -> u64
    ensures { result ≡ min (length (put_bytes put.now)) (2 ^ 64 - 1) }
{
    match put {
        Some(value) => (value.as_slice().len() as u64).saturating_add(4),
        None => 0,
    }
}

#[tactic(auto, using(crate::proofs::Lengths::operation_size))]
fn operation_length(operation: &Operation) -> u64
    ensures { result ≡ min (length (operation_bytes operation.now)) (2 ^ 64 - 1) }
{
    (operation.key.as_slice().len() as u64)
        .saturating_add(4 + 1 + 4)
        .saturating_add(put_length(&operation.put))
}

fn operations_length(operations: &[Operation]) -> u64
    ensures { result ≡ min (length (operations_bytes operations.now)) (2 ^ 64 - 1) }
{
    let mut total = 0u64;
    'adding: for operation in operations {
        total = total.saturating_add(operation_length(operation));
    }
    total
}

/// The length of a plain record of the batch, or the greatest number where it is more. Takes no memory.
#[tactic(auto, using(crate::proofs::Lengths::plain_size))]
pub fn plain_length(batch: &Batch) -> u64
    ensures { (verdict sequence : ℕ) → result ≡ min (length (record_bytes (record { verdict = verdict; body = Plain sequence batch.now }))) (2 ^ 64 - 1) }
{
    operations_length(batch.as_slice()).saturating_add(AROUND)
}

/// The length of a record that prepares the batch, or the greatest number where it is more. Takes no memory.
#[tactic(auto, using(crate::proofs::Lengths::prepare_size))]
pub fn prepare_length(batch: &Batch) -> u64
    ensures { (verdict k sequence : ℕ) → result ≡ min (length (record_bytes (record { verdict = verdict; body = Prepare k sequence batch.now }))) (2 ^ 64 - 1) }
{
    operations_length(batch.as_slice()).saturating_add(AROUND + COMMIT)
}
