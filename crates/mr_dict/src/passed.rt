//! The key whose newest version was passed.

ghost use Rattle.std.specs.Prelude.{◌≡◌, None, Some, OnOk};
ghost use Rattle.mr_iter.specs.Snapshots.{is_skipped};
ghost use Rattle.mr_dict.specs.Given.{passed_key};

use mr_base::Memory;
use std::alloc::Global;

/// A key that was passed, if one was.
#[derive(Drop)]
pub struct Passed {
    key: Vec<u8>,
    is: bool,
}

impl Passed {
    pub fn new(alloc: Global) -> Passed
        ensures { passed_key result ≡ None }
    {
        Passed {
            key: Vec::new(alloc),
            is: false,
        }
    }

    pub fn is_of(&self, key: &[u8]) -> bool
        ensures { result ≡ is_skipped (passed_key self.now) key.now }
    {
        self.is && self.key.as_slice().cmp(key).is_eq()
    }

    /// Takes memory.
    pub fn set(&mut self, key: &[u8]) -> Result<(), Memory>
        ensures { OnOk result (passed_key self.new ≡ Some key.now) }
    {
        self.is = false;
        self.key.clear();
        self.key.extend_from_slice(key)?;
        self.is = true;
        Ok(())
    }
}
