//! Ends of ranges.

ghost use Rattle.std.specs.Prelude.{◌≡◌, ◌++◌, ◌∷◌, [], IfOk, List, ℕ};
ghost use Rattle.mr_memcmp.specs.Above.{above_of, IsRangeOf, IsLeastAbove};

use mr_base::{Blob, Memory};
use std::alloc::{AllocError, Global};

/// A copy of the bytes, and a byte behind them.
fn with_last(alloc: Global, bytes: &[u8], last: u8) -> Result<Vec<u8>, AllocError>
    ensures { IfOk result (λ out. out.items ≡ bytes.now ++ last ∷ []) }
{
    let mut out = Vec::from_slice(alloc, bytes)?;
    out.push(last)?;
    Ok(out)
}

/// The least bytes behind all those that go on from a front: a key goes on from the front exactly
/// where it is at or above it and below these. None where no bytes are behind them all: the front
/// is empty, or each of its bytes is 0xFF.
#[tactic(auto, using(crate::proofs::Behind::raised_at))]
pub fn above_prefix(alloc: Global, prefix: &[u8]) -> Result<Option<Blob>, Memory>
    ensures { IfOk result (λ above. above ≡ above_of prefix.now) }
{
    for at in (0..prefix.len()).rev() {
        if prefix[at] < 255 {
            let above = with_last(alloc, &prefix[..at], prefix[at] + 1)?;
            return Ok(Some(Blob::from_vec(above)));
        }
    }
    Ok(None)
}

/// Bytes go on from a front exactly where they are at or above it and below the bytes behind it.
pub fn prefixes_are_ranges()
    ensures { (prefix : List ℕ) → IsRangeOf prefix }
{}

/// No bytes that are above all that go on from a front are below those behind it.
pub fn least_above_prefixes()
    ensures { (prefix : List ℕ) → IsLeastAbove prefix }
{}
