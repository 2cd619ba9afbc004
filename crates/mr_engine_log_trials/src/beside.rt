//! What a script's log is to leave, kept as a plain list beside it.
//!
//! A step of a script is w to write a batch, p to prepare one, c to decide the pending one, a to abandon it, s to settle,
//! and r to open the log again. A step that its log can't take does nothing.
use mr_base::Memory;
use std::alloc::Global;

/// Behind the batches that count.
pub const END: u8 = 255;

/// What the records are to leave, and the verdict that none of them has: for each batch that counts its commit, 0 for a plain one, its sequence
/// number and its key; the sequence number of the prepare that is pending in the log; and the last sequence number.
#[derive(Drop)]
struct Beside {
    counted: Vec<u8>,
    pending: Option<u8>,
    verdict: u8,
    last: u8,
}

/// The commit and the key of a batch, by its sequence number.
pub fn commit_of(sequence: u8) -> u8 {
    sequence.saturating_add(100)
}

pub fn key_of(sequence: u8) -> u8 {
    sequence.saturating_add(50)
}

impl Beside {
    /// Adds the pending batch to those that count where the verdict commits it. A verdict is given once.
    fn give_verdict(&mut self) -> Result<(), Memory> {
        if self.verdict == 0 {
            return Ok(());
        }
        let verdict = self.verdict;
        self.verdict = 0;
        match self.pending.take() {
            Some(sequence) if verdict == 1 => self.count(commit_of(sequence), sequence),
            _ => Ok(()),
        }
    }

    fn count(&mut self, commit: u8, sequence: u8) -> Result<(), Memory> {
        self.counted
            .extend_from_slice(&[commit, sequence, key_of(sequence)])?;
        Ok(())
    }

    /// Whether a prepare is pending that has no verdict.
    fn is_undecided(&self) -> bool {
        self.pending.is_some() && self.verdict == 0
    }

    /// Takes the verdict that is due and a new sequence number.
    fn begin_record(&mut self) -> Result<u8, Memory> {
        self.give_verdict()?;
        self.last = self.last.saturating_add(1);
        Ok(self.last)
    }

    fn step(&mut self, step: u8) -> Result<(), Memory> {
        match (step, self.is_undecided()) {
            (b'w', false) => {
                let sequence = self.begin_record()?;
                self.count(0, sequence)
            }
            (b'p', false) => {
                self.pending = Some(self.begin_record()?);
                Ok(())
            }
            (b's', false) => self.give_verdict(),
            (b'c', true) => {
                self.verdict = 1;
                Ok(())
            }
            (b'a', true) => {
                self.verdict = 2;
                Ok(())
            }
            (b'r', _) => {
                self.verdict = 0;
                Ok(())
            }
            _ => Ok(()),
        }
    }
}

/// What a log is to leave behind these steps: the batches that count, `END`, the commit, the number and the key of the pending one, if any, and
/// the last number.
pub fn left_by(alloc: Global, script: &[u8]) -> Result<Vec<u8>, Memory> {
    let mut beside = Beside {
        counted: Vec::new(alloc),
        pending: None,
        verdict: 0,
        last: 0,
    };
    for step in script {
        beside.step(*step)?;
    }
    beside.counted.extend_from_slice(&[END])?;
    if let Some(sequence) = beside.pending {
        beside.count(commit_of(sequence), sequence)?;
    }
    beside.counted.extend_from_slice(&[beside.last])?;
    Ok(beside.counted)
}
