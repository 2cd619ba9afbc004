//! A plain list of versions, kept beside a store.
use mr_base::Memory;
use std::alloc::Global;

/// A version: its family, its key of one byte, its sequence number, whose last byte is its value, and whether it is a put.
#[derive(Clone, Copy, Drop)]
pub struct Noted {
    pub family: u32,
    pub key: u8,
    pub sequence: u64,
    pub put: bool,
}

/// All versions in their order; the batches that count, as bytes; and the last sequence number.
#[derive(Drop)]
pub struct Beside {
    pub noted: Vec<Noted>,
    pub counted: Vec<u8>,
    pub last: u64,
}

/// The last byte of a number.
pub fn low(number: u64) -> u8 {
    (number % 256) as u8
}

/// Adds the head of a batch to bytes: its commit, 0 for a plain one, its sequence number and its count of operations.
pub fn add_head(out: &mut Vec<u8>, commit: u64, sequence: u64, count: usize) -> Result<(), Memory> {
    out.extend_from_slice(&[low(commit), low(sequence), low(count as u64)])?;
    Ok(())
}

/// Adds an operation to bytes: its family, its key, and 1 for a put.
pub fn add_operation(out: &mut Vec<u8>, family: u32, key: u8, put: bool) -> Result<(), Memory> {
    out.extend_from_slice(&[low(family as u64), key, put as u8])?;
    Ok(())
}

impl Beside {
    pub fn new(alloc: Global) -> Beside {
        Beside {
            noted: Vec::new(alloc),
            counted: Vec::new(alloc),
            last: 0,
        }
    }

    /// Adds a batch that counts.
    pub fn count(&mut self, commit: u64, sequence: u64, noted: &[Noted]) -> Result<(), Memory> {
        self.noted.extend_from_slice(noted)?;
        add_head(&mut self.counted, commit, sequence, noted.len())?;
        for one in noted {
            add_operation(&mut self.counted, one.family, one.key, one.put)?;
        }
        Ok(())
    }

    /// The newest version of a key of a family that isn't past a number.
    pub fn newest(&self, family: u32, key: u8, at: u64) -> Option<Noted> {
        let mut newest = None;
        for one in &self.noted {
            if one.family == family && one.key == key && one.sequence <= at {
                newest = Some(*one);
            }
        }
        newest
    }
}
