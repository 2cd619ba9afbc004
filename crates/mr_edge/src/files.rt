//! The numbered files of a folder. File f is `f.mr`, with f in decimal.
//!
//! A file that an earlier process left is synced as it is opened, so that what a read gives of it is on the disk. A file
//! is made by the first write to it, after its folder where that is missing too. Only a regular file is opened, and no
//! link is followed.
ghost use Rattle.std.specs.Prelude.{◌≤◌, length, IfOk};

use crate::folder::{Folder, Locking, out_of_memory};
use std::alloc::{AllocError, Global};
use std::fs::{OpenFile, OpenOptions};
use std::io;
use std::os::unix::fs::FileExt;
use std::rt::Files;

/// How many files can be used for which all memory is taken at first.
const ROOM: usize = 16;

/// How often a call that is interrupted is tried.
pub(crate) const MOST_TRIES: u32 = 1024;

/// A file that was used.
#[derive(Drop)]
struct Opened<F> {
    number: u64,
    file: F,
}

/// A folder and its files that were used.
#[derive(Drop)]
pub(crate) struct FolderFiles<R: Files> {
    pub(crate) rt: R,
    folder: Folder<R>,
    open: Vec<Opened<R::File>>,
    /// A sync failed, and the system may have dropped what it couldn't write. So no later sync is believed, and no more
    /// files are opened.
    has_lost: bool,
}

/// Reads some bytes from this place on. An interrupted read goes on.
fn read_some<F: FileExt>(file: &F, at: u64, out: &mut [u8]) -> io::Result<usize>
    ensures { IfOk result (λ n. n ≤ length out.old) }
{
    for _ in 0..MOST_TRIES {
        match file.read_at(out, at) {
            Err(error) if error.kind() == io::ErrorKind::Interrupted => {}
            answer => return answer,
        }
    }
    Err(io::ErrorKind::Interrupted.into())
}

/// Fills the front of `out` from this place on, up to the file's end.
fn read_full<F: FileExt>(file: &F, at: u64, out: &mut [u8]) -> io::Result<usize>
    ensures { IfOk result (λ n. n ≤ length out.old) }
{
    let mut got = 0;
    while got < out.len() {
        let place = at.saturating_add(got as u64);
        match read_some(file, place, &mut out[got..])? {
            0 => break,
            more => got += more,
        }
    }
    Ok(got)
}

impl<R: Files + Drop> FolderFiles<R>
where
    R::File: FileExt + Locking,
{
    /// Touches nothing.
    pub(crate) fn new(rt: R, alloc: Global, folder: &str) -> Result<FolderFiles<R>, AllocError> {
        Ok(FolderFiles {
            rt,
            folder: Folder::new(alloc, folder)?,
            open: Vec::with_capacity(alloc, ROOM)?,
            has_lost: false,
        })
    }
}

impl<R: Files> FolderFiles<R>
where
    R::File: FileExt + Locking,
{
    /// Reads from a place on up to the file's end.
    pub(crate) fn read(&mut self, number: u64, at: u64, out: &mut [u8]) -> io::Result<usize>
        ensures { IfOk result (λ n. n ≤ length out.old) }
    {
        match self.find(number)? {
            Some(file) => read_full(file, at, out),
            None => Ok(0),
        }
    }

    /// The file's length, 0 of a missing one.
    pub(crate) fn length(&mut self, number: u64) -> io::Result<u64> {
        match self.find(number)? {
            Some(file) => Ok(file.metadata()?.len()),
            None => Ok(0),
        }
    }

    /// Writes all of the bytes at this place.
    pub(crate) fn write(&mut self, number: u64, at: u64, bytes: &[u8]) -> io::Result<()> {
        if self.find(number)?.is_none() {
            self.make(number)?;
        }
        match self.find(number)? {
            Some(file) => file.write_all_at(bytes, at),
            None => Err(io::ErrorKind::NotFound.into()),
        }
    }

    /// Cuts the file to a length. A missing one has nothing to cut.
    pub(crate) fn cut(&mut self, number: u64, length: u64) -> io::Result<()> {
        match self.find(number)? {
            Some(file) => file.set_len(length),
            None => Ok(()),
        }
    }

    /// Puts the file on the disk, and its place in the folder, and the folder's in the one that it stands in.
    pub(crate) fn sync(&mut self, number: u64) -> io::Result<()> {
        self.check_lost()?;
        let answer = self.try_sync(number);
        self.has_lost = answer.is_err();
        answer
    }

    fn try_sync(&mut self, number: u64) -> io::Result<()> {
        match self.find(number)? {
            Some(file) => file.sync_data()?,
            None => return Ok(()),
        }
        self.folder.sync_lists(&self.rt)
    }

    fn check_lost(&self) -> io::Result<()> {
        if self.has_lost {
            Err(io::ErrorKind::Other.into())
        } else {
            Ok(())
        }
    }

    /// Where the file stands among those that were used.
    fn place_of(&self, number: u64) -> Option<usize> {
        self.open.iter().position(|opened| opened.number == number)
    }

    /// The file, opened where it isn't yet. None where it is missing.
    fn find(&mut self, number: u64) -> io::Result<Option<&R::File>> {
        if self.place_of(number).is_none() && self.folder.hold(&self.rt)? {
            self.open_old(number)?;
        }
        let Some(place) = self.place_of(number) else {
            return Ok(None);
        };
        match self.open.get(place) {
            Some(opened) => Ok(Some(&opened.file)),
            None => Ok(None),
        }
    }

    /// Opens a file that an earlier process left, if it did. It is an error that it is a link, or else no regular file.
    fn open_old(&mut self, number: u64) -> io::Result<()> {
        self.check_lost()?;
        let path = self.folder.file(number)?;
        match self.rt.symlink_metadata(path) {
            Ok(found) if found.is_file() => {}
            Ok(_) => return Err(io::ErrorKind::InvalidInput.into()),
            Err(error) if error.kind() == io::ErrorKind::NotFound => return Ok(()),
            Err(error) => return Err(error),
        }
        let file = OpenOptions::new()
            .read(true)
            .write(true)
            .open(&self.rt, path)?;
        if !file.metadata()?.is_file() {
            return Err(io::ErrorKind::InvalidInput.into());
        }
        self.settle(number, &file)
    }

    /// Keeps a file that was there, once it is on the disk.
    fn settle(&mut self, number: u64, file: &R::File) -> io::Result<()> {
        self.has_lost = true;
        file.sync_data()?;
        self.folder.sync_lists(&self.rt)?;
        self.has_lost = false;
        self.keep(number, file)
    }

    /// Keeps a second handle of the file. The system gives no second handle the number of a standard stream, which the
    /// first one has where that stream was closed when the program began.
    fn keep(&mut self, number: u64, file: &R::File) -> io::Result<()> {
        let file = file.try_clone()?;
        match self.open.push(Opened { number, file }) {
            Ok(()) => Ok(()),
            Err(_) => Err(out_of_memory()),
        }
    }

    /// Makes a file that is missing, after its folder. It is an error that there is one by now.
    fn make(&mut self, number: u64) -> io::Result<()> {
        if !self.folder.hold(&self.rt)? {
            self.folder.make(&self.rt)?;
        }
        self.folder.is_changing();
        let path = self.folder.file(number)?;
        let file = OpenOptions::new()
            .read(true)
            .write(true)
            .create_new(true)
            .open(&self.rt, path)?;
        self.keep(number, &file)
    }
}
