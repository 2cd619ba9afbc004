//! A version in memory beside one of a run.
ghost use Rattle.std.specs.Prelude.{◌≡◌, nat_lt, IfOk, IfErr, false};
ghost use Rattle.std.specs.Option.{option_map, option_map_or};
ghost use Rattle.mr_base.specs.declared.stop.Stop.TheVariants.{Memory as MemoryStop};
ghost use Rattle.mr_iter.specs.Versions.{version_cmp, IsInOrder};
ghost use Rattle.mr_iter.specs.Newest.{newest, later};
ghost use Rattle.mr_block.specs.Held.{version_held};
ghost use Rattle.mr_memtable.specs.Given.{version_of};
ghost use Rattle.mr_levels.specs.Levels.{AreKept};

use bytes::Bytes;
use mr_base::{Memory, Stop};
use mr_block::{Found, block_of_one};
use mr_levels::Levels;
use mr_memtable::{Memtable, VersionRef};
use std::alloc::Global;

/// A copy of a version in memory, in a block of its own. Takes memory.
fn hold(alloc: Global, key: &[u8], version: VersionRef<'_>) -> Result<Found, Memory>
    ensures { IfOk result (λ f. version_held f ≡ version_of key.now version.entry) }
{
    let put = if version.is_put {
        Some(version.value)
    } else {
        None
    };
    let block = block_of_one(alloc, key, version.sequence, put)?;
    match Bytes::from_vec(block.into_vec()) {
        Ok(block) => Ok(Found::new(block, 0)),
        Err(_) => Err(Memory),
    }
}

/// Whether a version that was found has a later number.
fn is_later(found: &Option<Found>, sequence: u64) -> bool
    ensures { result ≡ option_map_or (λ f. nat_lt sequence (version_held f).sequence) found.now false }
{
    match found {
        Some(found) => sequence < found.sequence(),
        None => false,
    }
}

/// The later of the newest version in memory and one that was found in a run, of equal ones the one in memory. Takes memory only where
/// that is the answer.
pub fn later_in_memory(
    alloc: Global,
    memtable: &Memtable,
    key: &[u8],
    number: u64,
    found: Option<Found>,
) -> Result<Option<Found>, Stop>
    ensures later { IfOk result (λ o. option_map version_held o ≡ later (newest number key.now memtable.now.versions) (option_map version_held found)) }
    ensures stops { IfErr result (λ e. e ≡ MemoryStop) }
{
    match memtable.newest(key, number) {
        Some(version) => {
            if is_later(&found, version.sequence) {
                return Ok(found);
            }
            let own = hold(alloc, key, version)?;
            Ok(Some(own))
        }
        None => Ok(found),
    }
}

/// The versions in memory are in order, and so are the runs.
pub fn are_in_order(memtable: &Memtable, levels: &Levels)
    ensures memtable { IsInOrder (version_cmp memtable.now.direction) memtable.now.versions }
    ensures levels { AreKept levels.now.direction levels.now.newest levels.now.deeper }
{
    let _first = memtable.cursor();
    let _direction = levels.direction();
}
