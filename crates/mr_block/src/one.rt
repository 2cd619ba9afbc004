//! A block of one version.
ghost use Rattle.std.specs.Prelude.{◌≡◌, ◌∷◌, [], OnOk, IfOk, Ok};
ghost use Rattle.std.specs.Option.{option_map};
ghost use Rattle.mr_iter.specs.Versions.{as_version};
ghost use Rattle.mr_block.specs.Block.{block_bytes, block_in};
ghost use Rattle.mr_block.specs.Built.{FitsEntry};

use crate::write::{write_entry, write_u32};
use mr_base::{Blob, Memory};
use std::alloc::Global;

/// The bytes of the block beside its key and its value.
const AROUND: usize = 25;

/// The block of one version, made at once; `put` is None for a deletion. Takes memory. A block of 2^32 bytes or more is answered as
/// want of memory.
pub fn block_of_one(
    alloc: Global,
    key: &[u8],
    sequence: u64,
    put: Option<&[u8]>,
) -> Result<Blob, Memory>
    ensures written { IfOk result (λ b. b ≡ block_bytes (as_version key.now sequence (option_map (λ v. v.now) put.entry) ∷ [])) }
    ensures fits { OnOk result (FitsEntry (as_version key.now sequence (option_map (λ v. v.now) put.entry))) }
    ensures reads_back { IfOk result (λ b. block_in b ≡ Ok (as_version key.now sequence (option_map (λ v. v.now) put.entry) ∷ [])) }
{
    let value = put.unwrap_or(&[]);
    let total = AROUND.saturating_add(key.len()).saturating_add(value.len());
    if total >= 0x1_0000_0000 {
        return Err(Memory);
    }
    let mut out = Vec::with_capacity(alloc, total)?;
    write_u32(&mut out, 1)?;
    write_u32(&mut out, 8)?;
    write_entry(&mut out, key, sequence, put)?;
    Ok(Blob::from_vec(out))
}
