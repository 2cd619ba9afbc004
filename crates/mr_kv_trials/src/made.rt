//! Batches that are made of plain bytes.
use mr_base::{Blob, Memory};
use mr_wal::{Batch, Operation};
use std::alloc::Global;

/// Adds a put, or a deletion where there is no value.
pub fn add(
    alloc: Global,
    batch: &mut Batch,
    family: u32,
    key: &[u8],
    put: Option<&[u8]>,
) -> Result<(), Memory> {
    let key = Blob::from_slice(alloc, key)?;
    let put = match put {
        Some(value) => Some(Blob::from_slice(alloc, value)?),
        None => None,
    };
    batch.push(Operation { family, key, put })?;
    Ok(())
}
