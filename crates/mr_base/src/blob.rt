//! A list of bytes.
ghost use Rattle.std.specs.Prelude.{◌≡◌, List, length, IfOk, nat_eq, [], IsTrue, ◌↔◌};
ghost use Rattle.std.specs.Cmp.Lexicographic.{pointwise};

use crate::stop::Memory;
use std::alloc::Global;
use std::marker::Model;

/// A list of bytes that is owned and not changed: a name, a text, a key, a value or a body.
#[derive(Drop)]
pub struct Blob {
    bytes: Vec<u8>,
}

impl Model for Blob {
    ghost use Rattle.std.specs.Prelude.{ℕ, List};

    ghost Value = { List ℕ };

    ghost view = { λ b. b.bytes.items };
}

impl Blob {
    /// A copy of these bytes.
    pub fn from_slice(alloc: Global, bytes: &[u8]) -> Result<Blob, Memory>
        ensures { IfOk result (λ b. b ≡ bytes.now) }
    {
        match bytes.to_vec(alloc) {
            Ok(bytes) => Ok(Blob { bytes }),
            Err(_) => Err(Memory),
        }
    }

    pub fn from_vec(bytes: Vec<u8>) -> Blob
        ensures { result ≡ bytes.items }
    {
        Blob { bytes }
    }

    pub fn into_vec(self) -> Vec<u8>
        ensures { result.items ≡ self }
    {
        self.bytes
    }

    pub fn as_slice(&self) -> &[u8]
        ensures { result.now ≡ self.now }
    {
        &self.bytes
    }

    pub fn copy(&self, alloc: Global) -> Result<Blob, Memory>
        ensures { IfOk result (λ b. b ≡ self.now) }
    {
        Blob::from_slice(alloc, &self.bytes)
    }

    pub fn len(&self) -> usize
        ensures { result ≡ length self.now }
    {
        self.bytes.len()
    }

    pub fn is_empty(&self) -> bool
        ensures { IsTrue result ↔ (self.now ≡ []) }
    {
        self.bytes.is_empty()
    }

    /// Whether the two have the same bytes.
    pub fn is_same(&self, other: &Blob) -> bool
        ensures { result ≡ pointwise nat_eq self.now other.now }
    {
        self.bytes.as_slice() == other.bytes.as_slice()
    }
}
