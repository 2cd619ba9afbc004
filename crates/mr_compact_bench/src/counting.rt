//! A place for runs that counts what is added to them, and a test that keeps all.
ghost use Rattle.std.specs.Prelude.{[], true, refl, ⊤};

use crate::unused::Unused;
use mr_base::{Direction, Stop};
use mr_iter::{Filter, RunInfo, RunOut};

/// Keeps each entry.
#[derive(Drop)]
pub struct KeepAll;

impl Filter for KeepAll {
    ghost keeps = { λ f key value. true };

    fn keep(&self, _: &[u8], _: &[u8]) -> bool {
        true
    }
}

/// The bytes and the entries of the run that is begun. Nothing is written.
#[derive(Drop)]
pub struct Counting {
    pub direction: Direction,
    pub file: Option<u64>,
    pub bytes: u64,
    pub entries: u64,
}

impl RunOut<Unused> for Counting {
    ghost out = { λ s. record { direction = s.direction; file = s.file; added = λ image. []; bytes = s.bytes } };

    ghost run = { λ direction entries bytes versions. ⊥ };

    ghost one_run = { λ d n m bytes vs ws one other. absurd one };

    ghost stands = { λ s file. ⊤ };

    fn begin(&mut self, file: u64) {
        self.file = Some(file);
        self.bytes = 0;
        self.entries = 0;
    }

    fn add(&mut self, _: &mut Unused, key: &[u8], _: u64, put: Option<&[u8]>) -> Result<(), Stop> {
        let value = match put {
            Some(value) => value.len(),
            None => 0,
        };
        let bytes = 17 + key.len() as u128 + value as u128 + self.bytes as u128;
        match u64::try_from(bytes) {
            Ok(bytes) => {
                self.bytes = bytes;
                self.entries = self.entries.saturating_add(1);
                Ok(())
            }
            Err(_) => {
                self.file = None;
                Err(Stop::Memory)
            }
        }
    }

    fn bytes(&self) -> u64 {
        self.bytes
    }

    fn finish(&mut self, _: &mut Unused) -> Result<RunInfo, Stop> {
        let file = self.file;
        self.file = None;
        match file {
            Some(file) => Ok(RunInfo {
                file,
                length: self.bytes,
                entries: self.entries,
            }),
            None => Err(Stop::Memory),
        }
    }

    ghost by_file = { λ o i j same. refl };
}
