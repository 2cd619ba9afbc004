//! One put or deletion of a batch.
//!
//!     operation   family u32, kind u8: 1 for a put, 2 for a deletion; key length u32, key; for a put value length u32, value
ghost use Rattle.std.specs.Prelude.{◌≡◌, ◌≤◌, length, IfOk, IfErr};
ghost use Rattle.mr_wal.specs.Operations.{kind_in, put_in, operation_in, kind_given, put_given, operation_given, operation_of as copy_of};

use crate::fields::{BytesLeft, bytes_of, u32_in};
use mr_base::{Blob, Memory};
use sqlite_items::Items;
use std::alloc::Global;

/// A put of a value for a key of a family, or a deletion, where `put` is None.
#[derive(Drop)]
pub struct Operation {
    pub family: u32,
    pub key: Blob,
    pub put: Option<Blob>,
}

impl Operation {
    ghost use Rattle.std.specs.Prelude.{◌≡◌};
    ghost use Rattle.mr_wal.specs.Operations.{operation_of};

    /// The operation, lent.
    pub fn lend(&self) -> OperationRef<'_>
        ensures { operation_of result ≡ self.now }
    {
        let put = match &self.put {
            Some(value) => Some(value.as_slice()),
            None => None,
        };
        OperationRef {
            family: self.family,
            key: self.key.as_slice(),
            put,
        }
    }
}

/// Operations that are done together.
pub type Batch = Items<Operation>;

/// An operation whose bytes are lent: a put of a value for a key of a family, or a deletion, where `put` is None.
#[derive(Clone, Copy)]
pub struct OperationRef<'a> {
    pub family: u32,
    pub key: &'a [u8],
    pub put: Option<&'a [u8]>,
}

/// Whether it is a put, from the byte that says so.
fn kind_of(bytes: &[u8]) -> Result<(bool, &[u8]), BytesLeft>
    ensures read { kind_given result ≡ kind_in bytes.now }
    ensures rest { IfOk result (λ r. length r.1.now ≤ length bytes.now) }
    ensures left { IfErr result (λ left. left ≤ length bytes.now) }
{
    match bytes {
        [1, rest @ ..] => Ok((true, rest)),
        [2, rest @ ..] => Ok((false, rest)),
        _ => Err(bytes.len()),
    }
}

/// The value of a put; a deletion has none.
fn put_of(is_put: bool, bytes: &[u8]) -> Result<(Option<&[u8]>, &[u8]), BytesLeft>
    ensures read { put_given result ≡ put_in is_put bytes.now }
    ensures rest { IfOk result (λ r. length r.1.now ≤ length bytes.now) }
    ensures left { IfErr result (λ left. left ≤ length bytes.now) }
{
    if !is_put {
        return Ok((None, bytes));
    }
    let (size, rest) = u32_in(bytes)?;
    let (value, rest) = bytes_of(size as usize, rest)?;
    Ok((Some(value), rest))
}

/// The operation in front.
pub fn operation_of(bytes: &[u8]) -> Result<(OperationRef<'_>, &[u8]), BytesLeft>
    ensures read { operation_given result ≡ operation_in bytes.now }
    ensures rest { IfOk result (λ r. length r.1.now ≤ length bytes.now) }
    ensures left { IfErr result (λ left. left ≤ length bytes.now) }
{
    let (family, rest) = u32_in(bytes)?;
    let (is_put, rest) = kind_of(rest)?;
    let (size, rest) = u32_in(rest)?;
    let (key, rest) = bytes_of(size as usize, rest)?;
    let (put, rest) = put_of(is_put, rest)?;
    Ok((OperationRef { family, key, put }, rest))
}

/// The operation with bytes of its own.
pub fn copy_operation(alloc: Global, lent: OperationRef<'_>) -> Result<Operation, Memory>
    ensures { IfOk result (λ o. o ≡ copy_of lent.entry) }
{
    let key = Blob::from_slice(alloc, lent.key)?;
    let put = match lent.put {
        Some(value) => Some(Blob::from_slice(alloc, value)?),
        None => None,
    };
    Ok(Operation {
        family: lent.family,
        key,
        put,
    })
}
