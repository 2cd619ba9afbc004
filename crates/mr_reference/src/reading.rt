//! The script.

ghost use Rattle.std.specs.Prelude.{◌≡◌, ◌≤◌, ◌^◌, IsTrue, length, IfOk, IfErr};
ghost use Rattle.mr_reference.specs.Causes.{IsCause};

use crate::failure::Failure;
use mr_base::{Blob, Source};
use std::alloc::Global;

/// The greatest length of a script in bytes.
const LONGEST: usize = 1 << 30;

/// How many bytes are asked of the source at once.
const PIECE: usize = 4096;

/// The whole script that the source has, where it fits.
pub fn read_script<S: Source>(alloc: Global, source: &mut S) -> Result<Blob, Failure>
    ensures whole { IsTrue (S.source source.old).tells → IfOk result (λ script. script ≡ (S.source source.old).left) }
    ensures fits { IfOk result (λ script. length script ≤ 2 ^ 30) }
    ensures cause { IfErr result (IsCause (S.source source.old) (S.source source.new)) }
{
    let mut script = Vec::new(alloc);
    let mut buffer = [0u8; PIECE];
    while script.len() <= LONGEST {
        let count = source.take(&mut buffer)?;
        if count == 0 {
            return Ok(Blob::from_vec(script));
        }
        script.extend_from_slice(&buffer[..count])?;
    }
    Err(Failure::TooLong)
}
