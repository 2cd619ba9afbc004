//! A block of a run, judged when it is read.
ghost use Rattle.std.specs.Prelude.{◌≡◌, ◌≤◌, ◌<◌, ◌+◌, ◌*◌, ◌^◌, length, take, drop, IfOk, IfErr, OnOk, Ok, Err};
ghost use Rattle.mr_base.specs.Disk.{Tells, file_of, seen};
ghost use Rattle.mr_base.specs.Calls.{Same, Counts};
ghost use Rattle.mr_block.specs.Block.{block_bytes, outcome};
ghost use Rattle.mr_iter.specs.Cursors.{MayStop};
ghost use Rattle.mr_run_open.specs.Blocks.{judged, first_judged, read_at, IsOffenceOf};

use bytes::Bytes;
use mr_base::{Disk, Malformed, Stop};
use mr_block::{BlockRef, SharedBlock};
use std::alloc::Global;

/// Whether a block has some entries, and the first one this key.
fn judge_first(place: u64, known: &[u8], block: &BlockRef<'_>) -> Result<(), Malformed>
    requires { place + length (block_bytes block.now) < 2 ^ 64 }
    ensures ok { OnOk result (first_judged place known.now block.now ≡ Ok block.now) }
    ensures err { IfErr result (λ m. first_judged place known.now block.now ≡ Err m.0) }
{
    let count = block.count();
    if count == 0 {
        return Err(Malformed(place));
    }
    let key = block.key(0);
    let at = place + 4 + 4 * count as u64;
    if key.len() != known.len() {
        return Err(Malformed(at));
    }
    if key != known {
        return Err(Malformed(at + 4));
    }
    Ok(())
}

/// The block that these bytes are, which begin at a place of the file and have this first key by the index; or the place of
/// the first offence.
pub fn judge(place: u64, known: &[u8], bytes: Bytes) -> Result<SharedBlock, Malformed>
    requires { place + length bytes < 2 ^ 64 }
    ensures ok { IfOk result (λ b. judged place known.now bytes ≡ Ok b) }
    ensures err { IfErr result (λ m. judged place known.now bytes ≡ Err m.0) }
    ensures some { IfOk result (λ b. 0 < length b) }
    ensures few { IfOk result (λ b. length b ≤ length bytes) }
{
    let block = match SharedBlock::parse(bytes) {
        Ok(block) => block,
        Err(malformed) => return Err(Malformed(place + malformed.0)),
    };
    match judge_first(place, known, &block.view()) {
        Ok(()) => Ok(block),
        Err(malformed) => Err(malformed),
    }
}

/// So many bytes of a file from a place on, or those that it has there.
fn bytes_from<D: Disk>(
    alloc: Global,
    disk: &mut D,
    file: u64,
    place: u64,
    size: u32,
) -> Result<Bytes, Stop>
    ensures counts { Counts 1 size 0 (D.disk disk.old) (D.disk disk.new) }
    ensures same { Tells (D.disk disk.old) → Same (D.disk disk.old) (D.disk disk.new) }
    ensures stops { IfErr result (MayStop (λ image f at. ⊥) (D.disk disk.old) (D.disk disk.new)) }
    ensures few { IfOk result (λ b. length b ≤ size) }
    ensures bytes { Tells (D.disk disk.old) → IfOk result (λ b. b ≡ take size (drop place (seen (D.disk disk.old) file))) }
{
    let mut bytes = vec![in alloc; 0u8; size as usize]?;
    let got = disk.read(file, place, &mut bytes)?;
    bytes.truncate(got);
    match Bytes::from_vec(bytes) {
        Ok(bytes) => Ok(bytes),
        Err(_) => Err(Stop::Memory),
    }
}

/// The block of a file that begins at a place, has this size and this first key by the index; or its first offence. Takes
/// memory.
pub fn read_judged<D: Disk>(
    alloc: Global,
    disk: &mut D,
    file: u64,
    place: u64,
    size: u32,
    known: &[u8],
) -> Result<SharedBlock, Stop>
    requires { place + size < 2 ^ 64 }
    ensures counts { Counts 1 size 0 (D.disk disk.old) (D.disk disk.new) }
    ensures same { Tells (D.disk disk.old) → Same (D.disk disk.old) (D.disk disk.new) }
    ensures stops { IfErr result (MayStop (IsOffenceOf file place size known.now) (D.disk disk.old) (D.disk disk.new)) }
    ensures read { Tells (D.disk disk.old) → IfOk result (λ b. read_at place size known.now (seen (D.disk disk.old) file) ≡ Ok b) }
    ensures some { IfOk result (λ b. 0 < length b) }
    ensures few { IfOk result (λ b. length b ≤ size) }
{
    let bytes = match bytes_from(alloc, disk, file, place, size) {
        Ok(bytes) => bytes,
        Err(stop) => return Err(stop),
    };
    match judge(place, known, bytes) {
        Ok(block) => Ok(block),
        Err(malformed) => Err(Stop::Damaged {
            file,
            at: malformed.0,
        }),
    }
}
