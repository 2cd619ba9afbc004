//! A file that was changed since the host was made.
ghost use Rattle.std.specs.Prelude.{◌≡◌, ◌++◌, ◌∷◌, length, take, min, OnOk, OnErr};
ghost use Rattle.mr_base.specs.Disk.{overwrite};

use std::alloc::AllocError;

#[derive(Drop)]
pub struct MemFile {
    /// What a read gives.
    pub bytes: Vec<u8>,
    /// How many steps of the record there were at its last sync, 0 where there was none.
    pub synced: usize,
}

/// Puts bytes in their place, and past the end where they reach so far.
pub fn put(held: &mut Vec<u8>, at: u64, bytes: &[u8]) -> Result<(), AllocError>
    ensures ok { OnOk result (held.new.items ≡ overwrite at bytes.now held.old.items) }
    ensures err { OnErr result (held.new.items ≡ held.old.items) }
{
    let from = held.len().min(at as usize);
    let inside = bytes.len().min(held.len() - from);
    held.extend_from_slice(&bytes[inside..])?;
    held[from..from + inside].copy_from_slice(&bytes[..inside]);
    Ok(())
}

impl MemFile {
    ghost use Rattle.mr_memhost.specs.Held.{shown, wrote, shortened, settled};

    pub fn write(&mut self, at: u64, bytes: &[u8]) -> Result<(), AllocError>
        ensures ok { OnOk result (shown self.new ≡ wrote at bytes.now (shown self.old)) }
        ensures err { OnErr result (shown self.new ≡ shown self.old) }
    {
        put(&mut self.bytes, at, bytes)
    }

    pub fn shorten(&mut self, to: u64)
        ensures { shown self.new ≡ shortened to (shown self.old) }
    {
        self.bytes.truncate(to as usize);
    }

    /// The file is synced by the step after so many.
    pub fn settle(&mut self, steps: usize)
        ensures { shown self.new ≡ settled steps (shown self.old) }
    {
        self.synced = steps;
    }
}
