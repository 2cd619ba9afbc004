//! The record of a host's calls, with what they left.
ghost use Rattle.std.specs.Prelude.{◌≡◌, ◌≤◌, ◌==◌, ℕ, [], if◌then◌else◌, length, OnOk, OnErr};
ghost use Rattle.std.proofs.Props.{props};
ghost use Rattle.mr_base.specs.Disk.{AreBytes};
ghost use Rattle.mr_memhost.specs.declared.step.Step.TheVariants.{Write, Cut, Sync, Emit};
ghost use Rattle.mr_memhost.specs.Files.{bytes_of, held};
ghost use Rattle.mr_memhost.specs.Story.{Kept, story_of, start_of, with_step, latest};

use crate::file_map::{Changed, Contents, cut_in, read_bytes, settle_in, write_in};
use crate::step::Step;
use mr_base::{Blob, Memory};
use std::alloc::{AllocError, Global};
use std::collections::BTreeMap;

/// Each call that changes something adds its step, or changes nothing.
#[derive(Drop)]
pub struct Journal {
    pub alloc: Global,
    /// The files as the host began, all of them on the disk.
    pub initial: Contents,
    /// The output as the host began.
    pub before: Vec<u8>,
    /// The files that were changed since.
    pub files: Changed,
    pub output: Vec<u8>,
    pub steps: Vec<Step>,
    pub ghost kept: { Kept (story_of (bytes_of initial) before.items steps.items) (held initial files) output.items } by { Prim.hlevel props },
}

impl Journal {
    ghost use Rattle.mr_memhost.specs.Told.{story};

    pub fn new(alloc: Global) -> Journal
        ensures files { (f : ℕ) → bytes_of result.initial f ≡ [] }
        ensures output { result.before.items ≡ [] }
        ensures steps { result.steps.items ≡ [] }
    {
        Journal {
            alloc,
            initial: BTreeMap::new(alloc),
            before: Vec::new(alloc),
            files: BTreeMap::new(alloc),
            output: Vec::new(alloc),
            steps: Vec::new(alloc),
        }
    }

    /// With these files, all of them on the disk, and the output so far, twice.
    pub fn begin(alloc: Global, initial: Contents, before: Vec<u8>, output: Vec<u8>) -> Journal
        requires output { output.items ≡ before.items }
        requires bytes { (f : ℕ) → AreBytes (bytes_of initial f) }
        ensures files { (f : ℕ) → bytes_of result.initial f ≡ bytes_of initial f }
        ensures before { result.before.items ≡ before.items }
        ensures steps { result.steps.items ≡ [] }
    {
        Journal {
            alloc,
            initial,
            before,
            files: BTreeMap::new(alloc),
            output,
            steps: Vec::new(alloc),
        }
    }

    /// What a read gives of a file.
    pub fn bytes(&self, file: u64) -> &[u8]
        ensures { result.now ≡ ((latest (story self.now)).files file).bytes }
    {
        read_bytes(&self.initial, &self.files, file)
    }

    pub fn output(&self) -> &[u8]
        ensures { result.now ≡ (latest (story self.now)).output }
    {
        &self.output
    }

    /// Makes these the bytes that a file begins with.
    pub fn add(&mut self, file: u64, bytes: &[u8]) -> Result<(), Memory>
        requires { length self.old.steps.items ≡ 0 }
        ensures ok { OnOk result ((f : ℕ) → bytes_of self.new.initial f ≡ (if f == file then bytes.now else bytes_of self.old.initial f)) }
        ensures err { OnErr result (story self.new ≡ story self.old) }
        ensures same { (self.new.steps ≡ self.old.steps) × (self.new.before ≡ self.old.before) }
    {
        let Ok(bytes) = bytes.to_vec(self.alloc) else {
            return Err(Memory);
        };
        match self.initial.insert(file, bytes) {
            Ok(_) => {
                // No call was made, so no file was changed.
                self.files.clear();
                Ok(())
            }
            Err(_) => Err(Memory),
        }
    }

    pub fn write(&mut self, file: u64, at: u64, bytes: &[u8]) -> Result<(), AllocError>
        requires { at ≤ length ((latest (story self.old)).files file).bytes }
        ensures ok { OnOk result (story self.new ≡ with_step (Write file at bytes.now) (story self.old)) }
        ensures err { OnErr result (story self.new ≡ story self.old) }
    {
        let step = Step::Write {
            file,
            at,
            bytes: Blob::from_vec(bytes.to_vec(self.alloc)?),
        };
        self.steps.push(step)?;
        match write_in(self.alloc, &self.initial, &mut self.files, file, at, bytes) {
            Ok(()) => Ok(()),
            Err(error) => {
                let _ = self.steps.pop();
                Err(error)
            }
        }
    }

    pub fn cut(&mut self, file: u64, to: u64) -> Result<(), AllocError>
        requires { to ≤ length ((latest (story self.old)).files file).bytes }
        ensures ok { OnOk result (story self.new ≡ with_step (Cut file to) (story self.old)) }
        ensures err { OnErr result (story self.new ≡ story self.old) }
    {
        self.steps.push(Step::Cut { file, to })?;
        match cut_in(self.alloc, &self.initial, &mut self.files, file, to) {
            Ok(()) => Ok(()),
            Err(error) => {
                let _ = self.steps.pop();
                Err(error)
            }
        }
    }

    pub fn sync(&mut self, file: u64) -> Result<(), AllocError>
        ensures ok { OnOk result (story self.new ≡ with_step (Sync file) (story self.old)) }
        ensures err { OnErr result (story self.new ≡ story self.old) }
    {
        self.steps.push(Step::Sync { file })?;
        let steps = self.steps.len();
        match settle_in(self.alloc, &self.initial, &mut self.files, file, steps) {
            Ok(()) => Ok(()),
            Err(error) => {
                let _ = self.steps.pop();
                Err(error)
            }
        }
    }

    pub fn emit(&mut self, piece: &[u8]) -> Result<(), AllocError>
        ensures ok { OnOk result (story self.new ≡ with_step (Emit piece.now) (story self.old)) }
        ensures err { OnErr result (story self.new ≡ story self.old) }
    {
        let step = Step::Emit {
            bytes: Blob::from_vec(piece.to_vec(self.alloc)?),
        };
        self.steps.push(step)?;
        match self.output.extend_from_slice(piece) {
            Ok(()) => Ok(()),
            Err(error) => {
                let _ = self.steps.pop();
                Err(error)
            }
        }
    }
}
