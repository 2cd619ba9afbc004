//! The image that a crash leaves: the calls are done again, and the choice says what becomes of each that isn't synced.
ghost use Rattle.std.specs.Prelude.{◌≡◌, ◌==◌, ℕ, if◌then◌else◌, take, IfOk, OnOk};
ghost use Rattle.mr_base.specs.Disk.{MayLeave, overwrite};
ghost use Rattle.mr_memhost.specs.Crash.{IsImage, wrote_by, cut_by, synced_of, remade};
ghost use Rattle.mr_memhost.specs.Files.{bytes_of};
ghost use Rattle.mr_memhost.specs.Story.{latest};

use crate::choice::{Choice, Fate};
use crate::file_map::{Changed, Contents};
use crate::journal::Journal;
use crate::mem_file::put;
use crate::step::Step;
use std::alloc::{AllocError, Global};

fn copied(contents: &Contents) -> Result<Contents, AllocError>
    ensures { IfOk result (λ m. (f : ℕ) → bytes_of m f ≡ bytes_of contents.now f) }
{
    Ok(contents.clone()?)
}

impl Journal {
    ghost use Rattle.mr_memhost.specs.Told.{story};

    /// The files' bytes after a crash.
    pub fn image(&self, choice: Choice) -> Result<Contents, AllocError>
        ensures image { IfOk result (λ m. (f : ℕ) → IsImage choice ((latest (story self.now)).files f) (bytes_of m f)) }
        ensures allowed { IfOk result (λ m. (f : ℕ) → MayLeave ((latest (story self.now)).files f) (bytes_of m f)) }
    {
        let unsynced = choice.fate();
        let mut image = copied(&self.initial)?;
        for number in 0..self.steps.len() {
            remake(
                self.alloc,
                &self.files,
                &mut image,
                number,
                &self.steps[number],
                unsynced,
            )?;
        }
        Ok(image)
    }
}

fn synced_steps(files: &Changed, file: u64) -> usize
    ensures { result ≡ synced_of files.now file }
{
    match files.get(&file) {
        Some(held) => held.synced,
        None => 0,
    }
}

fn write_image(
    alloc: Global,
    image: &mut Contents,
    file: u64,
    at: u64,
    bytes: &[u8],
) -> Result<(), AllocError>
    ensures { OnOk result ((f : ℕ) → bytes_of image.new f ≡ (if f == file then overwrite at bytes.now (bytes_of image.old f) else bytes_of image.old f)) }
{
    match image.get_mut(&file) {
        Some(held) => put(held, at, bytes),
        None => {
            let mut held = Vec::new(alloc);
            put(&mut held, at, bytes)?;
            image.insert(file, held)?;
            Ok(())
        }
    }
}

fn cut_image(image: &mut Contents, file: u64, to: u64)
    ensures { (f : ℕ) → bytes_of image.new f ≡ (if f == file then take to (bytes_of image.old f) else bytes_of image.old f) }
{
    match image.get_mut(&file) {
        Some(held) => held.truncate(to as usize),
        None => {}
    }
}

fn write_by(
    alloc: Global,
    image: &mut Contents,
    file: u64,
    at: u64,
    bytes: &[u8],
    fate: Fate,
) -> Result<(), AllocError>
    ensures { OnOk result ((f : ℕ) → bytes_of image.new f ≡ (if f == file then wrote_by fate at bytes.now (bytes_of image.old f) else bytes_of image.old f)) }
{
    match fate {
        Fate::Done => write_image(alloc, image, file, at, bytes),
        Fate::Undone => Ok(()),
        Fate::Filled(byte) => {
            let filler = vec![in alloc; byte; bytes.len()]?;
            write_image(alloc, image, file, at, &filler)
        }
    }
}

fn cut_by(image: &mut Contents, file: u64, to: u64, fate: Fate)
    ensures { (f : ℕ) → bytes_of image.new f ≡ (if f == file then cut_by fate to (bytes_of image.old f) else bytes_of image.old f) }
{
    match fate {
        Fate::Undone => {}
        Fate::Done | Fate::Filled(_) => cut_image(image, file, to),
    }
}

/// Does the step with this number again.
pub fn remake(
    alloc: Global,
    files: &Changed,
    image: &mut Contents,
    number: usize,
    step: &Step,
    unsynced: Fate,
) -> Result<(), AllocError>
    ensures { OnOk result ((f : ℕ) → bytes_of image.new f ≡ remade unsynced number (synced_of files.now) step.now f (bytes_of image.old f)) }
{
    match step {
        Step::Write { file, at, bytes } => {
            let is_synced = number < synced_steps(files, *file);
            write_by(
                alloc,
                image,
                *file,
                *at,
                bytes.as_slice(),
                unsynced.at_step(is_synced),
            )
        }
        Step::Cut { file, to } => {
            let is_synced = number < synced_steps(files, *file);
            cut_by(image, *file, *to, unsynced.at_step(is_synced));
            Ok(())
        }
        Step::Sync { .. } | Step::Emit { .. } => Ok(()),
    }
}
