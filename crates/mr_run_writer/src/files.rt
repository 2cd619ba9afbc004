//! Runs in files, one after another.
ghost use Rattle.std.specs.Prelude.{◌≡◌, ◌<◌, ◌+◌, ◌-◌, ◌^◌, ℕ, List, length, min, Some, None, [], IsSome, IfSome, IfErr, IfOk, OnOk, OnErr, unwrap_or};
ghost use Rattle.std.specs.Option.{option_map};
ghost use Rattle.mr_base.specs.Disk.{Tells, Image, File, seen, file_of, IsAtRest};
ghost use Rattle.mr_base.specs.Calls.{Counts};
ghost use Rattle.mr_iter.specs.Versions.{IsInOrder, version_cmp, as_version};
ghost use Rattle.mr_iter.specs.RunOuts.{KeepsOthers, MayFail, FitsBehind, with_version, entry_bytes};
ghost use Rattle.mr_run_file.specs.Reading.{IsRun};

use crate::writer::RunWriter;
use mr_base::{Direction, Disk, Memory, Stop};
use mr_iter::{RunInfo, RunOut};
use std::alloc::Global;

/// A place for runs of one direction: the writer of the one that is begun, and the bytes of its entries.
#[derive(Drop)]
pub struct RunFiles {
    pub direction: Direction,
    pub writer: Option<RunWriter>,
    pub bytes: u64,
    pub alloc: Global,
}

/// These bytes and those of an entry: two lengths of 4, a sequence number of 8, a kind of 1, the key and the value. A sum of 2^64
/// or more is answered as want of memory.
fn with_entry(bytes: u64, key: &[u8], value: &[u8]) -> Result<u64, Memory>
    ensures { IfOk result (λ n. n ≡ bytes + (17 + length key.now + length value.now)) }
{
    let Some(more) = bytes.checked_add(17) else {
        return Err(Memory);
    };
    let Some(more) = more.checked_add(key.len() as u64) else {
        return Err(Memory);
    };
    match more.checked_add(value.len() as u64) {
        Some(all) => Ok(all),
        None => Err(Memory),
    }
}

impl RunFiles {
    /// No run is begun.
    pub fn new(direction: Direction, alloc: Global) -> RunFiles
        ensures direction { result.direction ≡ direction }
        ensures none { result.writer ≡ None }
    {
        RunFiles {
            direction,
            writer: None,
            bytes: 0,
            alloc,
        }
    }
}

impl<D: Disk> RunOut<D> for RunFiles {
    ghost use Rattle.mr_run_writer.specs.Outs.{files_out, files_stand, one_list, by_its_file};

    ghost out = { files_out };

    ghost run = { IsRun };

    ghost one_run = { one_list };

    ghost stands = { files_stand };

    fn begin(&mut self, file: u64) {
        self.writer = Some(RunWriter::new(file, self.direction, self.alloc));
        self.bytes = 0;
    }

    fn add(
        &mut self,
        disk: &mut D,
        key: &[u8],
        sequence: u64,
        put: Option<&[u8]>,
    ) -> Result<(), Stop> {
        let Some(mut writer) = self.writer.take() else {
            return Err(Stop::Memory);
        };
        let bytes = with_entry(self.bytes, key, put.unwrap_or(&[]))?;
        writer.add(disk, key, sequence, put)?;
        self.bytes = bytes;
        self.writer = Some(writer);
        Ok(())
    }

    fn bytes(&self) -> u64 {
        self.bytes
    }

    fn finish(&mut self, disk: &mut D) -> Result<RunInfo, Stop> {
        match self.writer.take() {
            Some(writer) => writer.finish(disk),
            None => Err(Stop::Memory),
        }
    }

    ghost by_file = { by_its_file };
}
