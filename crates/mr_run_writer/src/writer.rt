//! The writer of one run.
ghost use Rattle.std.specs.Prelude.{◌≡◌, ℕ, List, ◌<◌, ◌+◌, ◌^◌, ◌++◌, ◌∷◌, [], true, false, if◌then◌else◌, length, IfErr, IfOk, OnOk, Ok};
ghost use Rattle.std.specs.Option.{option_map};
ghost use Rattle.byteorder.specs.Endian.{big_bytes};
ghost use Rattle.mr_base.specs.Disk.{Tells, file_of, IsAtRest};
ghost use Rattle.mr_base.specs.Calls.{Counts};
ghost use Rattle.mr_iter.specs.Versions.{Version, as_version};
ghost use Rattle.mr_iter.specs.RunOuts.{KeepsOthers, MayFail, with_version};
ghost use Rattle.mr_block.specs.Block.{block_bytes, block_in};
ghost use Rattle.mr_run_file.specs.Format.{key_bytes};
ghost use Rattle.mr_run_writer.specs.Buffers.{EndsAt, InLumps};
ghost use Rattle.mr_run_writer.specs.Drafts.{closed_bytes, versions_of, Stands, IsEnded, IsWritten};

use crate::buffer::WriteBuffer;
use crate::open_block::{OpenBlock, set_key};
use crate::run_index::RunIndex;
use mr_base::{Direction, Disk, Memory, Stop};
use mr_iter::RunInfo;
use std::alloc::Global;

/// Writes one run. It holds the block that is open, the index of those that are closed, and less than 65,536 bytes that are not yet
/// written; behind a call that stopped it is of no use.
#[derive(Drop)]
pub struct RunWriter {
    pub direction: Direction,
    pub buffer: WriteBuffer,
    pub index: RunIndex,
    pub block: OpenBlock,
    pub entries: u64,
    pub last: Vec<u8>,
}

fn one_more(count: u64) -> Result<u64, Memory>
    ensures { IfOk result (λ n. n ≡ count + 1) }
{
    match count.checked_add(1) {
        Some(more) => Ok(more),
        None => Err(Memory),
    }
}

impl RunWriter {
    /// A run without versions in the file with this number. Nothing is touched before there are bytes to write.
    pub fn new(file: u64, direction: Direction, alloc: Global) -> RunWriter
        ensures direction { result.direction ≡ direction }
        ensures file { result.buffer.file ≡ file }
        ensures entries { result.entries ≡ 0 }
        ensures stands { (bytes : List ℕ) → Stands result bytes }
        ensures empty { (bytes : List ℕ) → versions_of result bytes ≡ [] }
        ensures held { length result.buffer.held.items ≡ 0 }
    {
        RunWriter {
            direction,
            buffer: WriteBuffer::new(file, alloc),
            index: RunIndex::new(alloc),
            block: OpenBlock::new(alloc),
            entries: 0,
            last: Vec::new(alloc),
        }
    }

    /// Puts the open block behind the others.
    fn close_block<D: Disk>(&mut self, disk: &mut D) -> Result<(), Stop>
        requires { Tells (D.disk disk.old) → EndsAt self.old.buffer.written (file_of (D.disk disk.old) self.old.buffer.file).bytes }
        ensures direction { self.new.direction ≡ self.old.direction }
        ensures file { self.new.buffer.file ≡ self.old.buffer.file }
        ensures entries { self.new.entries ≡ self.old.entries }
        ensures last { self.new.last.items ≡ self.old.last.items }
        ensures versions { self.new.block.versions ≡ [] }
        ensures is_empty { self.new.block.is_empty ≡ true }
        ensures index { OnOk result (self.new.index.bytes.items ≡ ((self.old.index.bytes.items ++ big_bytes 8 (self.old.buffer.written + length self.old.buffer.held.items)) ++ big_bytes 4 (length (block_bytes self.old.block.versions))) ++ key_bytes self.old.block.first.items) }
        ensures count { OnOk result (self.new.index.blocks ≡ self.old.index.blocks + 1) }
        ensures size { OnOk result (length (block_bytes self.old.block.versions) < 2 ^ 32) }
        ensures room { OnOk result (self.old.buffer.written + length self.old.buffer.held.items + length (block_bytes self.old.block.versions) < 2 ^ 64) }
        ensures key { OnOk result (length self.old.block.first.items < 2 ^ 32) }
        ensures back { OnOk result (block_in (block_bytes self.old.block.versions) ≡ Ok self.old.block.versions) }
        ensures counts { Counts 0 0 0 (D.disk disk.old) (D.disk disk.new) }
        ensures stops { IfErr result (MayFail (D.disk disk.old) (D.disk disk.new)) }
        ensures others { Tells (D.disk disk.old) → KeepsOthers self.old.buffer.file (D.disk disk.old) (D.disk disk.new) }
        ensures lumps { OnOk result (InLumps 65536 self.old.buffer.written self.new.buffer.written) }
        ensures held { length self.old.buffer.held.items < 65536 → OnOk result (length self.new.buffer.held.items < 65536) }
        ensures end { Tells (D.disk disk.old) → OnOk result (EndsAt self.new.buffer.written (file_of (D.disk disk.new) self.old.buffer.file).bytes) }
        ensures bytes { Tells (D.disk disk.old) → OnOk result (closed_bytes self.new (file_of (D.disk disk.new) self.old.buffer.file).bytes ≡ closed_bytes self.old (file_of (D.disk disk.old) self.old.buffer.file).bytes ++ block_bytes self.old.block.versions) }
    {
        let block = self.block.close()?;
        let place = self.buffer.place_for(block.len())?;
        self.index.add(place, block.len(), &self.block.first)?;
        self.buffer.append(disk, block.as_slice())
    }

    /// Adds a version to the open block; `put` is None for a deletion.
    fn add_open(&mut self, key: &[u8], sequence: u64, put: Option<&[u8]>) -> Result<(), Memory>
        ensures direction { self.new.direction ≡ self.old.direction }
        ensures buffer { OnOk result ((self.new.buffer.file ≡ self.old.buffer.file) × (self.new.buffer.written ≡ self.old.buffer.written) × (self.new.buffer.held.items ≡ self.old.buffer.held.items)) }
        ensures index { OnOk result ((self.new.index.blocks ≡ self.old.index.blocks) × (self.new.index.bytes.items ≡ self.old.index.bytes.items)) }
        ensures entries { OnOk result (self.new.entries ≡ self.old.entries + 1) }
        ensures last { OnOk result (self.new.last.items ≡ key.now) }
        ensures versions { OnOk result (self.new.block.versions ≡ self.old.block.versions ++ as_version key.now sequence (option_map (λ v. v.now) put.entry) ∷ []) }
        ensures first { OnOk result (self.new.block.first.items ≡ (if self.old.block.is_empty then key.now else self.old.block.first.items)) }
        ensures is_empty { OnOk result (self.new.block.is_empty ≡ false) }
    {
        self.entries = one_more(self.entries)?;
        set_key(&mut self.last, key)?;
        self.block.add(key, sequence, put)
    }

    /// Adds a version behind the others; `put` is None for a deletion. Takes memory. After an error the writer is of no use.
    pub fn add<D: Disk>(
        &mut self,
        disk: &mut D,
        key: &[u8],
        sequence: u64,
        put: Option<&[u8]>,
    ) -> Result<(), Stop>
        requires stands { Tells (D.disk disk.old) → Stands self.old (file_of (D.disk disk.old) self.old.buffer.file).bytes }
        ensures direction { self.new.direction ≡ self.old.direction }
        ensures file { OnOk result (self.new.buffer.file ≡ self.old.buffer.file) }
        ensures entries { OnOk result (self.new.entries ≡ self.old.entries + 1) }
        ensures counts { Counts 0 0 0 (D.disk disk.old) (D.disk disk.new) }
        ensures stops { IfErr result (MayFail (D.disk disk.old) (D.disk disk.new)) }
        ensures others { Tells (D.disk disk.old) → KeepsOthers self.old.buffer.file (D.disk disk.old) (D.disk disk.new) }
        ensures lumps { OnOk result (InLumps 65536 self.old.buffer.written self.new.buffer.written) }
        ensures held { length self.old.buffer.held.items < 65536 → OnOk result (length self.new.buffer.held.items < 65536) }
        ensures open_block { OnOk result (length (block_bytes self.new.block.versions) < 4096) }
        ensures stands { Tells (D.disk disk.old) → OnOk result (Stands self.new (file_of (D.disk disk.new) self.old.buffer.file).bytes) }
        ensures added { Tells (D.disk disk.old) → OnOk result (versions_of self.new (file_of (D.disk disk.new) self.old.buffer.file).bytes ≡ with_version (versions_of self.old (file_of (D.disk disk.old) self.old.buffer.file).bytes) (as_version key.now sequence (option_map (λ v. v.now) put.entry))) }
    {
        self.add_open(key, sequence, put)?;
        if self.block.is_full() {
            self.close_block(disk)
        } else {
            Ok(())
        }
    }

    /// Closes the last block, where there is one that is open.
    fn close_last<D: Disk>(&mut self, disk: &mut D) -> Result<(), Stop>
        requires stands { Tells (D.disk disk.old) → Stands self.old (file_of (D.disk disk.old) self.old.buffer.file).bytes }
        ensures file { OnOk result (self.new.buffer.file ≡ self.old.buffer.file) }
        ensures entries { OnOk result (self.new.entries ≡ self.old.entries) }
        ensures counts { Counts 0 0 0 (D.disk disk.old) (D.disk disk.new) }
        ensures stops { IfErr result (MayFail (D.disk disk.old) (D.disk disk.new)) }
        ensures others { Tells (D.disk disk.old) → KeepsOthers self.old.buffer.file (D.disk disk.old) (D.disk disk.new) }
        ensures ended { Tells (D.disk disk.old) → OnOk result (IsEnded self.new (file_of (D.disk disk.new) self.old.buffer.file).bytes (versions_of self.old (file_of (D.disk disk.old) self.old.buffer.file).bytes)) }
    {
        if self.block.is_empty {
            Ok(())
        } else {
            self.close_block(disk)
        }
    }

    /// Writes the index and the footer behind the blocks.
    fn write_end<D: Disk>(self, disk: &mut D) -> Result<u64, Stop>
        requires end { Tells (D.disk disk.old) → EndsAt self.buffer.written (file_of (D.disk disk.old) self.buffer.file).bytes }
        ensures counts { Counts 0 0 1 (D.disk disk.old) (D.disk disk.new) }
        ensures stops { IfErr result (MayFail (D.disk disk.old) (D.disk disk.new)) }
        ensures others { Tells (D.disk disk.old) → KeepsOthers self.buffer.file (D.disk disk.old) (D.disk disk.new) }
        ensures length { Tells (D.disk disk.old) → IfOk result (λ n. Rattle.std.specs.Prelude.length (file_of (D.disk disk.new) self.buffer.file).bytes ≡ n) }
        ensures durable { Tells (D.disk disk.old) → OnOk result (IsAtRest (file_of (D.disk disk.new) self.buffer.file)) }
        ensures written { (vs : List Version) → Tells (D.disk disk.old) → 0 < self.entries → IsEnded self (file_of (D.disk disk.old) self.buffer.file).bytes vs → OnOk result (IsWritten (file_of (D.disk disk.new) self.buffer.file).bytes vs) }
    {
        let RunWriter {
            mut buffer,
            index,
            entries,
            last,
            ..
        } = self;
        let place = buffer.place_for(0)?;
        let tail = index.finish(place, &last, entries)?;
        buffer.append(disk, &tail)?;
        buffer.finish(disk)
    }

    /// Makes the versions a run, which a crash afterwards leaves just as a read gives it. Takes memory. What is said of the file holds
    /// where a version was added.
    pub fn finish<D: Disk>(mut self, disk: &mut D) -> Result<RunInfo, Stop>
        requires stands { Tells (D.disk disk.old) → Stands self (file_of (D.disk disk.old) self.buffer.file).bytes }
        ensures counts { Counts 0 0 1 (D.disk disk.old) (D.disk disk.new) }
        ensures stops { IfErr result (MayFail (D.disk disk.old) (D.disk disk.new)) }
        ensures others { Tells (D.disk disk.old) → KeepsOthers self.buffer.file (D.disk disk.old) (D.disk disk.new) }
        ensures named { IfOk result (λ i. i.file ≡ self.buffer.file) }
        ensures entries { IfOk result (λ i. i.entries ≡ self.entries) }
        ensures length { Tells (D.disk disk.old) → IfOk result (λ i. Rattle.std.specs.Prelude.length (file_of (D.disk disk.new) self.buffer.file).bytes ≡ i.length) }
        ensures counted { Tells (D.disk disk.old) → IfOk result (λ i. i.entries ≡ Rattle.std.specs.Prelude.length (versions_of self (file_of (D.disk disk.old) self.buffer.file).bytes)) }
        ensures written { Tells (D.disk disk.old) → 0 < self.entries → OnOk result (IsWritten (file_of (D.disk disk.new) self.buffer.file).bytes (versions_of self (file_of (D.disk disk.old) self.buffer.file).bytes)) }
        ensures durable { Tells (D.disk disk.old) → OnOk result (IsAtRest (file_of (D.disk disk.new) self.buffer.file)) }
    {
        let file = self.buffer.file;
        let entries = self.entries;
        self.close_last(disk)?;
        let length = self.write_end(disk)?;
        Ok(RunInfo {
            file,
            length,
            entries,
        })
    }
}
