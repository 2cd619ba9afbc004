//! The files of a host by number: those that it began with, and those that were changed since.
ghost use Rattle.std.specs.Prelude.{◌≡◌, ◌==◌, ℕ, if◌then◌else◌, OnOk, OnErr, IfOk};
ghost use Rattle.std.specs.Ordering.{nat_cmp};
ghost use Rattle.std.specs.BTreeMap.{get};
ghost use Rattle.mr_memhost.specs.Held.{shown, wrote, shortened, settled, untouched};
ghost use Rattle.mr_memhost.specs.Files.{bytes_of, held};

use crate::mem_file::MemFile;
use std::alloc::{AllocError, Global};
use std::collections::BTreeMap;

pub type Contents = BTreeMap<u64, Vec<u8>>;

pub type Changed = BTreeMap<u64, MemFile>;

/// The bytes that a file began with.
pub fn initial_bytes(initial: &Contents, file: u64) -> &[u8]
    ensures { result.now ≡ bytes_of initial.now file }
{
    match initial.get(&file) {
        Some(bytes) => bytes,
        None => &[],
    }
}

/// What a read gives of a file.
pub fn read_bytes<'a>(initial: &'a Contents, files: &'a Changed, file: u64) -> &'a [u8]
    ensures { result.now ≡ (held initial.now files.now file).bytes }
{
    match files.get(&file) {
        Some(held) => &held.bytes,
        None => initial_bytes(initial, file),
    }
}

fn unchanged(alloc: Global, bytes: &[u8]) -> Result<MemFile, AllocError>
    ensures { IfOk result (λ m. shown m ≡ untouched bytes.now) }
{
    Ok(MemFile {
        bytes: bytes.to_vec(alloc)?,
        synced: 0,
    })
}

pub fn write_in(
    alloc: Global,
    initial: &Contents,
    files: &mut Changed,
    file: u64,
    at: u64,
    bytes: &[u8],
) -> Result<(), AllocError>
    ensures ok { OnOk result ((f : ℕ) → held initial.now files.new f ≡ (if f == file then wrote at bytes.now (held initial.now files.old f) else held initial.now files.old f)) }
    ensures err { OnErr result ((f : ℕ) → held initial.now files.new f ≡ held initial.now files.old f) }
{
    match files.get_mut(&file) {
        Some(held) => held.write(at, bytes),
        None => {
            let mut held = unchanged(alloc, initial_bytes(initial, file))?;
            held.write(at, bytes)?;
            files.insert(file, held)?;
            Ok(())
        }
    }
}

pub fn cut_in(
    alloc: Global,
    initial: &Contents,
    files: &mut Changed,
    file: u64,
    to: u64,
) -> Result<(), AllocError>
    ensures ok { OnOk result ((f : ℕ) → held initial.now files.new f ≡ (if f == file then shortened to (held initial.now files.old f) else held initial.now files.old f)) }
    ensures err { OnErr result ((f : ℕ) → held initial.now files.new f ≡ held initial.now files.old f) }
{
    match files.get_mut(&file) {
        Some(held) => {
            held.shorten(to);
            Ok(())
        }
        None => {
            let mut held = unchanged(alloc, initial_bytes(initial, file))?;
            held.shorten(to);
            files.insert(file, held)?;
            Ok(())
        }
    }
}

/// The file is synced by the step after so many.
pub fn settle_in(
    alloc: Global,
    initial: &Contents,
    files: &mut Changed,
    file: u64,
    steps: usize,
) -> Result<(), AllocError>
    ensures ok { OnOk result ((f : ℕ) → held initial.now files.new f ≡ (if f == file then settled steps (held initial.now files.old f) else held initial.now files.old f)) }
    ensures err { OnErr result ((f : ℕ) → held initial.now files.new f ≡ held initial.now files.old f) }
{
    match files.get_mut(&file) {
        Some(held) => {
            held.settle(steps);
            Ok(())
        }
        None => {
            let mut held = unchanged(alloc, initial_bytes(initial, file))?;
            held.settle(steps);
            files.insert(file, held)?;
            Ok(())
        }
    }
}
