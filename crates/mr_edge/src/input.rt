//! Standard input.
ghost use Rattle.std.specs.Prelude.{◌≤◌, length, IfOk, false, []};

use crate::files::MOST_TRIES;
use mr_base::{Source, SourceFault};
use std::io;
use std::io::Read;

/// Reads some bytes. An interrupted read goes on.
fn read_some<F: Read>(reader: &mut F, out: &mut [u8]) -> io::Result<usize>
    ensures { IfOk result (λ n. n ≤ length out.old) }
{
    for _ in 0..MOST_TRIES {
        match reader.read(out) {
            Err(error) if error.kind() == io::ErrorKind::Interrupted => {}
            answer => return answer,
        }
    }
    Err(io::ErrorKind::Interrupted.into())
}

/// Standard input as a source: a take is one read. It counts the reads that failed.
#[derive(Drop)]
pub struct StdinSource<R: Input> {
    reader: R::Reader,
    faults: u64,
}

impl<R: Input> StdinSource<R> {
    /// Standard input from where it stands.
    pub fn new(rt: &R) -> StdinSource<R> {
        StdinSource {
            reader: rt.reader(),
            faults: 0,
        }
    }
}

impl<R: Input> Source for StdinSource<R> {
    ghost source = { λ s. record { tells = false; left = []; faults = s.faults } };

    fn take(&mut self, out: &mut [u8]) -> Result<usize, SourceFault> {
        match read_some(&mut self.reader, out) {
            Ok(taken) => Ok(taken),
            Err(_) => {
                self.faults = self.faults.saturating_add(1);
                Err(SourceFault)
            }
        }
    }
}
