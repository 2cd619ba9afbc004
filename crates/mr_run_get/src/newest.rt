//! The newest version of a key in blocks.
ghost use Rattle.std.specs.Prelude.{◌≡◌, length, IfOk};
ghost use Rattle.std.specs.List.{AllByRecursion};
ghost use Rattle.std.specs.Option.{option_map};
ghost use Rattle.mr_iter.specs.Versions.{version_cmp, IsInOrder, joined};
ghost use Rattle.mr_iter.specs.Newest.{newest};
ghost use Rattle.mr_block.specs.Held.{version_held};

use mr_base::{Direction, Memory};
use mr_block::{Found, SharedBlock};

/// The newest version of a key that isn't past a number, deletions included, of a block whose versions are in the order of the direction.
/// Takes memory.
pub fn newest_in(
    block: &SharedBlock,
    key: &[u8],
    number: u64,
    direction: Direction,
) -> Result<Option<Found>, Memory>
    ensures { IsInOrder (version_cmp direction) block.now → IfOk result (λ f. option_map version_held f ≡ newest number key.now block.now) }
{
    match block.view().newest(key, number, direction) {
        Some(i) => Ok(Some(block.found(i)?)),
        None => Ok(None),
    }
}

/// The same of blocks one after the other.
pub fn newest_of(
    blocks: &[SharedBlock],
    key: &[u8],
    number: u64,
    direction: Direction,
) -> Result<Option<Found>, Memory>
    ensures { AllByRecursion (IsInOrder (version_cmp direction)) blocks.now → IfOk result (λ f. option_map version_held f ≡ newest number key.now (joined blocks.now)) }
{
    'seeking: for block in blocks {
        if let Some(found) = newest_in(block, key, number, direction)? {
            return Ok(Some(found));
        }
    }
    Ok(None)
}
