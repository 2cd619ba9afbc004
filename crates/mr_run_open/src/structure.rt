//! Reading the structure of a run.
ghost use Rattle.std.specs.Prelude.{◌≡◌, ◌≤◌, ◌<◌, ◌+◌, map, IfOk, IfErr, OnOk, Ok};
ghost use Rattle.std.specs.List.{AllByRecursion};
ghost use Rattle.mr_base.specs.Disk.{Tells, seen};
ghost use Rattle.mr_base.specs.Calls.{Same, Counts, Reads};
ghost use Rattle.mr_run_file.specs.Reading.{recorded_in, footer_number};
ghost use Rattle.mr_run_open.specs.Given.{indexed_of, index_of};
ghost use Rattle.mr_run_open.specs.Runs.{OpenStops, IsFooter, IsWithin};

use crate::footer::{FOOTER, Footer, judge_footer};
use crate::index::{IndexRead, Unread, read_index};
use mr_base::{Disk, Stop};
use mr_iter::RunInfo;
use std::alloc::Global;

/// The file's length, which must be the recorded one and have room for a footer.
fn check_length<D: Disk>(disk: &mut D, info: &RunInfo) -> Result<(), Stop>
    ensures counts { Counts 0 0 0 (D.disk disk.old) (D.disk disk.new) }
    ensures same { Tells (D.disk disk.old) → Same (D.disk disk.old) (D.disk disk.new) }
    ensures stops { IfErr result (OpenStops info.now.file info.now.length info.now.entries (D.disk disk.old) (D.disk disk.new)) }
    ensures length { Tells (D.disk disk.old) → OnOk result (Rattle.std.specs.Prelude.length (seen (D.disk disk.old) info.now.file) ≡ info.now.length) }
    ensures room { OnOk result (FOOTER ≤ info.now.length) }
{
    let length = disk.length(info.file)?;
    if length != info.length {
        return Err(Stop::Damaged {
            file: info.file,
            at: length.min(info.length),
        });
    }
    if length < FOOTER {
        return Err(Stop::Damaged {
            file: info.file,
            at: 0,
        });
    }
    Ok(())
}

/// The footer of a file of the recorded length.
fn read_footer<D: Disk>(disk: &mut D, info: &RunInfo) -> Result<Footer, Stop>
    requires room { FOOTER ≤ info.now.length }
    requires length { Tells (D.disk disk.old) → Rattle.std.specs.Prelude.length (seen (D.disk disk.old) info.now.file) ≡ info.now.length }
    ensures counts { Counts 1 40 0 (D.disk disk.old) (D.disk disk.new) }
    ensures same { Tells (D.disk disk.old) → Same (D.disk disk.old) (D.disk disk.new) }
    ensures stops { IfErr result (OpenStops info.now.file info.now.length info.now.entries (D.disk disk.old) (D.disk disk.new)) }
    ensures footer { Tells (D.disk disk.old) → IfOk result (λ f. IsFooter info.now.entries (seen (D.disk disk.old) info.now.file) f.place f.size f.blocks) }
    ensures fits { IfOk result (λ f. f.place + f.size + 40 ≡ info.now.length) }
    ensures some { IfOk result (λ f. 0 < f.blocks) }
{
    let at = info.length - FOOTER;
    let mut footer = [0u8; 40];
    disk.read(info.file, at, &mut footer)?;
    match judge_footer(at, info.entries, &footer) {
        Ok(footer) => Ok(footer),
        Err(at) => Err(Stop::Damaged {
            file: info.file,
            at,
        }),
    }
}

/// The index that a footer tells of. Takes memory.
fn read_blocks<D: Disk>(
    alloc: Global,
    disk: &mut D,
    info: &RunInfo,
    footer: Footer,
) -> Result<IndexRead, Stop>
    requires fits { footer.place + footer.size + 40 ≡ info.now.length }
    requires length { Tells (D.disk disk.old) → Rattle.std.specs.Prelude.length (seen (D.disk disk.old) info.now.file) ≡ info.now.length }
    requires footer { Tells (D.disk disk.old) → IsFooter info.now.entries (seen (D.disk disk.old) info.now.file) footer.place footer.size footer.blocks }
    ensures counts { Counts 1 footer.size 0 (D.disk disk.old) (D.disk disk.new) }
    ensures same { Tells (D.disk disk.old) → Same (D.disk disk.old) (D.disk disk.new) }
    ensures stops { IfErr result (OpenStops info.now.file info.now.length info.now.entries (D.disk disk.old) (D.disk disk.new)) }
    ensures index { Tells (D.disk disk.old) → IfOk result (λ x. recorded_in info.now.length info.now.entries (seen (D.disk disk.old) info.now.file) ≡ Ok (index_of x)) }
    ensures sound { IfOk result (λ x. (0 < footer.blocks → 0 < Rattle.std.specs.Prelude.length x.blocks.items) × AllByRecursion IsWithin (map indexed_of x.blocks.items)) }
{
    let end = info.length - FOOTER;
    let mut bytes = vec![in alloc; 0u8; footer.size as usize]?;
    disk.read(info.file, footer.place, &mut bytes)?;
    match read_index(alloc, footer.place, footer.blocks, &bytes) {
        Ok(index) => Ok(index),
        Err(Unread::Memory) => Err(Stop::Memory),
        Err(Unread::Left(left)) => Err(Stop::Damaged {
            file: info.file,
            at: end.saturating_sub(left as u64),
        }),
    }
}

/// The index of a run's file, or the first offence of its structure. Takes memory.
pub fn read_structure<D: Disk>(
    alloc: Global,
    disk: &mut D,
    info: &RunInfo,
) -> Result<IndexRead, Stop>
    ensures counts { Counts 2 info.now.length 0 (D.disk disk.old) (D.disk disk.new) }
    ensures asked { Tells (D.disk disk.old) → Reads 2 (40 + footer_number 1 (seen (D.disk disk.old) info.now.file)) (D.disk disk.old) (D.disk disk.new) }
    ensures same { Tells (D.disk disk.old) → Same (D.disk disk.old) (D.disk disk.new) }
    ensures stops { IfErr result (OpenStops info.now.file info.now.length info.now.entries (D.disk disk.old) (D.disk disk.new)) }
    ensures index { Tells (D.disk disk.old) → IfOk result (λ x. recorded_in info.now.length info.now.entries (seen (D.disk disk.old) info.now.file) ≡ Ok (index_of x)) }
    ensures sound { IfOk result (λ x. (0 < Rattle.std.specs.Prelude.length x.blocks.items) × AllByRecursion IsWithin (map indexed_of x.blocks.items)) }
{
    match check_length(disk, info) {
        Ok(()) => {}
        Err(stop) => return Err(stop),
    }
    let footer = match read_footer(disk, info) {
        Ok(footer) => footer,
        Err(stop) => return Err(stop),
    };
    match read_blocks(alloc, disk, info, footer) {
        Ok(index) => Ok(index),
        Err(stop) => Err(stop),
    }
}
