//! A folder that is held: its lock, and the lists of files that a crash may still shorten.
//!
//! A folder that is there is locked before anything of it is read, so that no two runs use it at once. The list that the
//! folder stands in is synced before the first sync of a file counts, whoever made the folder.

use std::alloc::{AllocError, Global};
use std::fmt::Write;
use std::fs::{File, OpenFile, OpenOptions};
use std::io;
use std::rt::Files;

/// Room for what stands behind the folder's name: a slash, a file's number, and its ending.
const NAME_ROOM: usize = 32;

/// A file or a folder that can be locked as a whole. The handles of one opening share the lock, which ends with the last
/// of them.
pub trait Locking {
    /// Takes the lock. It is an error that another opening has it.
    fn hold(&self) -> io::Result<()>;
}

impl Locking for File {
    fn hold(&self) -> io::Result<()> {
        match self.try_lock() {
            Ok(()) => Ok(()),
            Err(error) => Err(error.into()),
        }
    }
}

/// A folder by its name.
#[derive(Drop)]
pub(crate) struct Folder<R: Files> {
    name: String,
    /// The path that was made last. All its memory is taken at first.
    path: String,
    /// The folder, locked, once it was found or made.
    held: Option<R::File>,
    /// A crash may still take a file from the folder's list.
    is_behind: bool,
    /// A crash may still take the folder from the list that it stands in.
    is_parent_behind: bool,
}

/// Syncs a folder's list of files. A file system that has no such sync answers `InvalidInput`.
fn sync_list<F: OpenFile>(folder: &F) -> io::Result<()> {
    match folder.sync_all() {
        Err(error) if error.kind() == io::ErrorKind::InvalidInput => Ok(()),
        answer => answer,
    }
}

/// What a want of memory is as an error of a file.
pub(crate) fn out_of_memory() -> io::Error {
    io::ErrorKind::OutOfMemory.into()
}

impl<R: Files> Folder<R>
where
    R::File: Locking,
{
    /// Touches nothing.
    pub(crate) fn new(alloc: Global, name: &str) -> Result<Folder<R>, AllocError> {
        let room = name.len().saturating_add(NAME_ROOM);
        Ok(Folder {
            name: String::from_str(alloc, name)?,
            path: String::with_capacity(alloc, room)?,
            held: None,
            is_behind: true,
            is_parent_behind: true,
        })
    }

    /// Finds the folder and locks it; false where it is missing. It is an error that another run holds it.
    pub(crate) fn hold(&mut self, rt: &R) -> io::Result<bool> {
        if self.held.is_some() {
            return Ok(true);
        }
        if self.name.is_empty() {
            return Err(io::ErrorKind::InvalidInput.into());
        }
        match rt.metadata(self.name.as_str()) {
            Ok(found) if found.is_dir() => {}
            Ok(_) => return Err(io::ErrorKind::NotADirectory.into()),
            Err(error) if error.kind() == io::ErrorKind::NotFound => return Ok(false),
            Err(error) => return Err(error),
        }
        let folder = OpenOptions::new().read(true).open(rt, self.name.as_str())?;
        folder.hold()?;
        self.held = Some(folder.try_clone()?);
        Ok(true)
    }

    /// Makes the folder, which was missing, and none that would hold it, and locks it. It is an error that it is there
    /// by now: then another run has made it.
    pub(crate) fn make(&mut self, rt: &R) -> io::Result<()> {
        rt.create_dir(self.name.as_str())?;
        self.is_parent_behind = true;
        if self.hold(rt)? {
            Ok(())
        } else {
            Err(io::ErrorKind::NotFound.into())
        }
    }

    /// A file is about to be made in it.
    pub(crate) fn is_changing(&mut self) {
        self.is_behind = true;
    }

    /// Syncs those lists of files that may be behind.
    pub(crate) fn sync_lists(&mut self, rt: &R) -> io::Result<()> {
        if self.is_parent_behind {
            let parent = OpenOptions::new().read(true).open(rt, self.parent()?)?;
            sync_list(&parent)?;
            self.is_parent_behind = false;
        }
        if self.is_behind {
            if let Some(folder) = &self.held {
                sync_list(folder)?;
                self.is_behind = false;
            }
        }
        Ok(())
    }

    /// The path of the folder that it stands in.
    fn parent(&mut self) -> io::Result<&str> {
        self.path.clear();
        match write!(self.path, "{}/..", self.name) {
            Ok(()) => Ok(self.path.as_str()),
            Err(_) => Err(out_of_memory()),
        }
    }

    /// The path of file f, which is `f.mr`.
    pub(crate) fn file(&mut self, number: u64) -> io::Result<&str> {
        self.path.clear();
        match write!(self.path, "{}/{number}.mr", self.name) {
            Ok(()) => Ok(self.path.as_str()),
            Err(_) => Err(out_of_memory()),
        }
    }
}
