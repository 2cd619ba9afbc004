//! Blocks in bytes that were read.
ghost use Rattle.std.specs.Prelude.{◌≡◌, ◌<◌, ◌≤◌, ◌^◌, ◌-◌, ◌++◌, ℕ, List, length, get_or, take, drop, IfOk, IfErr, OnOk, Ok};
ghost use Rattle.mr_base.specs.Disk.{Tells, seen};
ghost use Rattle.mr_base.specs.Calls.{Same, Counts};
ghost use Rattle.mr_iter.specs.Cursors.{MayStop};
ghost use Rattle.mr_run_file.specs.Reading.{Indexed};
ghost use Rattle.mr_run_open.specs.Runs.{no_block};
ghost use Rattle.mr_run_get.specs.Get.{between, sizes, cut_at, all_cut, IsCutStop, AreCutStops, AreRead, IsGapless, IsOffenceIn};

use crate::span::size_between;
use bytes::Bytes;
use mr_base::{Disk, Stop};
use mr_block::SharedBlock;
use mr_run_open::Run;
use std::alloc::Global;

/// So many bytes from a place on, or those that there are.
fn part(bytes: &[u8], from: usize, size: usize) -> &[u8]
    ensures { result.now ≡ take size (drop from bytes.now) }
{
    let rest = &bytes[from.min(bytes.len())..];
    &rest[..size.min(rest.len())]
}

/// Block i of a run, in bytes that were read, from a place on. Takes memory.
fn cut_block(
    alloc: Global,
    run: &Run,
    i: usize,
    bytes: &[u8],
    from: usize,
) -> Result<SharedBlock, Stop>
    requires { i < length run.now.index.blocks }
    ensures ok { IfOk result (λ b. cut_at bytes.now from (get_or run.now.index.blocks i no_block) ≡ Ok b) }
    ensures err { IfErr result (IsCutStop run.now.file bytes.now from (get_or run.now.index.blocks i no_block)) }
{
    let size = run.place_of_block(i).size as usize;
    let own = Bytes::copy_from_slice(alloc, part(bytes, from, size))?;
    match run.judge_block(i, own) {
        Ok(block) => Ok(block),
        Err(malformed) => Err(Stop::Damaged {
            file: run.info().file,
            at: malformed.0,
        }),
    }
}

/// The blocks of a run from one up to another, in the bytes that begin with the first of them. Takes memory.
fn cut_blocks(
    alloc: Global,
    run: &Run,
    bytes: &[u8],
    low: usize,
    high: usize,
) -> Result<Vec<SharedBlock>, Stop>
    requires order { low ≤ high }
    requires within { high ≤ length run.now.index.blocks }
    requires fits { sizes (between low high run.now.index.blocks) < 2 ^ 64 }
    ensures ok { IfOk result (λ b. all_cut bytes.now 0 (between low high run.now.index.blocks) ≡ Rattle.std.specs.Prelude.map Ok b.items) }
    ensures count { IfOk result (λ b. length b.items ≡ high - low) }
    ensures err { IfErr result (AreCutStops run.now.file bytes.now (between low high run.now.index.blocks)) }
{
    let mut blocks = Vec::new(alloc);
    let mut from = 0usize;
    'cutting: for i in low..high {
        let block = match cut_block(alloc, run, i, bytes, from) {
            Ok(block) => block,
            Err(stop) => return Err(stop),
        };
        blocks.push(block)?;
        from += run.place_of_block(i).size as usize;
    }
    Ok(blocks)
}

/// So many bytes of a file from a place on, or those that it has there. One read; takes memory.
fn read_span<D: Disk>(
    alloc: Global,
    disk: &mut D,
    file: u64,
    place: u64,
    size: usize,
) -> Result<Vec<u8>, Stop>
    ensures counts { Counts 1 size 0 (D.disk disk.old) (D.disk disk.new) }
    ensures same { Tells (D.disk disk.old) → Same (D.disk disk.old) (D.disk disk.new) }
    ensures stops { IfErr result (MayStop (λ image f at. ⊥) (D.disk disk.old) (D.disk disk.new)) }
    ensures few { IfOk result (λ b. length b.items ≤ size) }
    ensures bytes { Tells (D.disk disk.old) → IfOk result (λ b. b.items ≡ take size (drop place (seen (D.disk disk.old) file))) }
{
    let mut bytes = vec![in alloc; 0u8; size]?;
    let got = disk.read(file, place, &mut bytes)?;
    bytes.truncate(got);
    Ok(bytes)
}

/// The blocks of a run from one up to another, by one read. Each has a buffer of its own. Takes memory.
pub fn read_blocks<D: Disk>(
    alloc: Global,
    run: &Run,
    disk: &mut D,
    low: usize,
    high: usize,
) -> Result<Vec<SharedBlock>, Stop>
    requires order { low < high }
    requires within { high ≤ length run.now.index.blocks }
    ensures counts { Counts 1 (sizes (between low high run.now.index.blocks)) 0 (D.disk disk.old) (D.disk disk.new) }
    ensures same { Tells (D.disk disk.old) → Same (D.disk disk.old) (D.disk disk.new) }
    ensures stops { IfErr result (MayStop (IsOffenceIn run.now (between low high run.now.index.blocks)) (D.disk disk.old) (D.disk disk.new)) }
    ensures count { IfOk result (λ b. length b.items ≡ high - low) }
    ensures read { Tells (D.disk disk.old) → IsGapless run.now → IfOk result (λ b. AreRead (seen (D.disk disk.old) run.now.file) (between low high run.now.index.blocks) b.items) }
{
    let Some(size) = size_between(run, low, high) else {
        return Err(Stop::Memory);
    };
    let bytes = match read_span(
        alloc,
        disk,
        run.info().file,
        run.place_of_block(low).place,
        size,
    ) {
        Ok(bytes) => bytes,
        Err(stop) => return Err(stop),
    };
    cut_blocks(alloc, run, &bytes, low, high)
}
