//! The end of a file that is being written: what is held until it is worth a write.
ghost use Rattle.std.specs.Prelude.{◌≡◌, ◌<◌, ◌+◌, ◌^◌, ◌++◌, [], length, take, IfErr, IfOk, OnOk, OnErr};
ghost use Rattle.mr_base.specs.Disk.{Tells, file_of, IsAtRest, HasRisen};
ghost use Rattle.mr_base.specs.Calls.{Counts};
ghost use Rattle.mr_iter.specs.RunOuts.{KeepsOthers, MayFail};
ghost use Rattle.mr_run_writer.specs.Buffers.{EndsAt, with_held, InLumps};

use mr_base::{Disk, DiskFault, Memory, Stop};
use std::alloc::Global;

/// So many bytes are written at once, or more, but for the last ones.
pub const WRITE_BYTES: usize = 65_536;

/// What is held grows by so many bytes at most before they may be written.
const PIECE_BYTES: usize = 4096;

/// The number of the file, how many bytes were written to it, and those that are held.
#[derive(Drop)]
pub struct WriteBuffer {
    pub file: u64,
    pub written: u64,
    pub held: Vec<u8>,
}

/// Cuts a file to nothing before its first bytes are written.
fn make_room<D: Disk>(disk: &mut D, file: u64, written: u64) -> Result<(), DiskFault>
    requires { Tells (D.disk disk.old) → EndsAt written (file_of (D.disk disk.old) file).bytes }
    ensures counts { Counts 0 0 0 (D.disk disk.old) (D.disk disk.new) }
    ensures cause { OnErr result (HasRisen (D.disk disk.old).faults (D.disk disk.new).faults) }
    ensures others { Tells (D.disk disk.old) → KeepsOthers file (D.disk disk.old) (D.disk disk.new) }
    ensures length { Tells (D.disk disk.old) → OnOk result (Rattle.std.specs.Prelude.length (file_of (D.disk disk.new) file).bytes ≡ written) }
    ensures bytes { Tells (D.disk disk.old) → OnOk result ((file_of (D.disk disk.new) file).bytes ≡ take written (file_of (D.disk disk.old) file).bytes) }
{
    if written == 0 {
        disk.cut(file, 0)
    } else {
        Ok(())
    }
}

/// Writes bytes behind those that were written to a file.
fn write_behind<D: Disk>(
    disk: &mut D,
    file: u64,
    written: u64,
    bytes: &[u8],
) -> Result<(), DiskFault>
    requires { Tells (D.disk disk.old) → EndsAt written (file_of (D.disk disk.old) file).bytes }
    ensures counts { Counts 0 0 0 (D.disk disk.old) (D.disk disk.new) }
    ensures cause { OnErr result (HasRisen (D.disk disk.old).faults (D.disk disk.new).faults) }
    ensures others { Tells (D.disk disk.old) → KeepsOthers file (D.disk disk.old) (D.disk disk.new) }
    ensures length { Tells (D.disk disk.old) → OnOk result (Rattle.std.specs.Prelude.length (file_of (D.disk disk.new) file).bytes ≡ written + Rattle.std.specs.Prelude.length bytes.now) }
    ensures bytes { Tells (D.disk disk.old) → OnOk result ((file_of (D.disk disk.new) file).bytes ≡ with_held written bytes.now (file_of (D.disk disk.old) file).bytes) }
{
    make_room(disk, file, written)?;
    disk.write_at(file, written, bytes)
}

impl WriteBuffer {
    /// Nothing is written and nothing held.
    pub fn new(file: u64, alloc: Global) -> WriteBuffer
        ensures file { result.file ≡ file }
        ensures written { result.written ≡ 0 }
        ensures held { result.held.items ≡ [] }
    {
        WriteBuffer {
            file,
            written: 0,
            held: Vec::new(alloc),
        }
    }

    /// The place behind all bytes, where so many more have room: a file of 2^64 bytes or more is answered as want of memory.
    pub fn place_for(&self, size: usize) -> Result<u64, Memory>
        ensures place { IfOk result (λ n. n ≡ self.now.written + length self.now.held.items) }
        ensures room { IfOk result (λ n. n + size < 2 ^ 64) }
    {
        let Some(place) = self.written.checked_add(self.held.len() as u64) else {
            return Err(Memory);
        };
        match place.checked_add(size as u64) {
            Some(_) => Ok(place),
            None => Err(Memory),
        }
    }

    /// Writes what is held.
    fn flush<D: Disk>(&mut self, disk: &mut D) -> Result<(), Stop>
        requires { Tells (D.disk disk.old) → EndsAt self.old.written (file_of (D.disk disk.old) self.old.file).bytes }
        ensures file { self.new.file ≡ self.old.file }
        ensures counts { Counts 0 0 0 (D.disk disk.old) (D.disk disk.new) }
        ensures stops { IfErr result (MayFail (D.disk disk.old) (D.disk disk.new)) }
        ensures others { Tells (D.disk disk.old) → KeepsOthers self.old.file (D.disk disk.old) (D.disk disk.new) }
        ensures held { OnOk result (self.new.held.items ≡ []) }
        ensures written { OnOk result (self.new.written ≡ self.old.written + length self.old.held.items) }
        ensures fits { OnOk result (self.new.written < 2 ^ 64) }
        ensures length { Tells (D.disk disk.old) → OnOk result (Rattle.std.specs.Prelude.length (file_of (D.disk disk.new) self.old.file).bytes ≡ self.new.written) }
        ensures bytes { Tells (D.disk disk.old) → OnOk result ((file_of (D.disk disk.new) self.old.file).bytes ≡ with_held self.old.written self.old.held.items (file_of (D.disk disk.old) self.old.file).bytes) }
    {
        let end = self.place_for(0)?;
        write_behind(disk, self.file, self.written, &self.held)?;
        self.written = end;
        self.held.clear();
        Ok(())
    }

    /// Holds a piece, and writes what is held once it is enough.
    fn put<D: Disk>(&mut self, disk: &mut D, piece: &[u8]) -> Result<(), Stop>
        requires end { Tells (D.disk disk.old) → EndsAt self.old.written (file_of (D.disk disk.old) self.old.file).bytes }
        ensures file { self.new.file ≡ self.old.file }
        ensures counts { Counts 0 0 0 (D.disk disk.old) (D.disk disk.new) }
        ensures stops { IfErr result (MayFail (D.disk disk.old) (D.disk disk.new)) }
        ensures others { Tells (D.disk disk.old) → KeepsOthers self.old.file (D.disk disk.old) (D.disk disk.new) }
        ensures total { OnOk result (self.new.written + length self.new.held.items ≡ self.old.written + length self.old.held.items + length piece.now) }
        ensures lumps { OnOk result (InLumps 65536 self.old.written self.new.written) }
        ensures held { OnOk result (length self.new.held.items < 65536) }
        ensures end { Tells (D.disk disk.old) → OnOk result (EndsAt self.new.written (file_of (D.disk disk.new) self.old.file).bytes) }
        ensures bytes { Tells (D.disk disk.old) → OnOk result (with_held self.new.written self.new.held.items (file_of (D.disk disk.new) self.old.file).bytes ≡ with_held self.old.written self.old.held.items (file_of (D.disk disk.old) self.old.file).bytes ++ piece.now) }
    {
        self.held.extend_from_slice(piece)?;
        if self.held.len() >= WRITE_BYTES {
            self.flush(disk)
        } else {
            Ok(())
        }
    }

    /// Adds bytes at the end, in pieces, so that never more than 65,536 and 4,096 are held. Takes memory.
    pub fn append<D: Disk>(&mut self, disk: &mut D, bytes: &[u8]) -> Result<(), Stop>
        requires end { Tells (D.disk disk.old) → EndsAt self.old.written (file_of (D.disk disk.old) self.old.file).bytes }
        ensures file { self.new.file ≡ self.old.file }
        ensures counts { Counts 0 0 0 (D.disk disk.old) (D.disk disk.new) }
        ensures stops { IfErr result (MayFail (D.disk disk.old) (D.disk disk.new)) }
        ensures others { Tells (D.disk disk.old) → KeepsOthers self.old.file (D.disk disk.old) (D.disk disk.new) }
        ensures total { OnOk result (self.new.written + length self.new.held.items ≡ self.old.written + length self.old.held.items + length bytes.now) }
        ensures lumps { OnOk result (InLumps 65536 self.old.written self.new.written) }
        ensures held { length self.old.held.items < 65536 → OnOk result (length self.new.held.items < 65536) }
        ensures end { Tells (D.disk disk.old) → OnOk result (EndsAt self.new.written (file_of (D.disk disk.new) self.old.file).bytes) }
        ensures bytes { Tells (D.disk disk.old) → OnOk result (with_held self.new.written self.new.held.items (file_of (D.disk disk.new) self.old.file).bytes ≡ with_held self.old.written self.old.held.items (file_of (D.disk disk.old) self.old.file).bytes ++ bytes.now) }
    {
        let mut rest = bytes;
        'pieces: while !rest.is_empty() {
            let (piece, behind) = rest.split_at(PIECE_BYTES.min(rest.len()));
            self.put(disk, piece)?;
            rest = behind;
        }
        Ok(())
    }

    /// Writes the last bytes and puts the file on the disk. Answers its length.
    pub fn finish<D: Disk>(mut self, disk: &mut D) -> Result<u64, Stop>
        requires { Tells (D.disk disk.old) → EndsAt self.written (file_of (D.disk disk.old) self.file).bytes }
        ensures counts { Counts 0 0 1 (D.disk disk.old) (D.disk disk.new) }
        ensures stops { IfErr result (MayFail (D.disk disk.old) (D.disk disk.new)) }
        ensures others { Tells (D.disk disk.old) → KeepsOthers self.file (D.disk disk.old) (D.disk disk.new) }
        ensures length { Tells (D.disk disk.old) → IfOk result (λ n. Rattle.std.specs.Prelude.length (file_of (D.disk disk.new) self.file).bytes ≡ n) }
        ensures fits { IfOk result (λ n. n < 2 ^ 64) }
        ensures bytes { Tells (D.disk disk.old) → OnOk result ((file_of (D.disk disk.new) self.file).bytes ≡ with_held self.written self.held.items (file_of (D.disk disk.old) self.file).bytes) }
        ensures durable { Tells (D.disk disk.old) → OnOk result (IsAtRest (file_of (D.disk disk.new) self.file)) }
    {
        self.flush(disk)?;
        disk.sync(self.file)?;
        Ok(self.written)
    }
}
