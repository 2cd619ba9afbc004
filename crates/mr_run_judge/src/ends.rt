//! The least and the greatest key of a run, by its index.
ghost use Rattle.std.specs.Prelude.{◌≡◌, if◌then◌else◌, IfOk};
ghost use Rattle.mr_stored.specs.Offences.{is_less as comes_before, lowest, highest};

use mr_base::{Blob, Direction, Memory};
use mr_iter::compare_keys;
use mr_manifest::LiveRun;
use mr_run_open::Run;
use std::alloc::Global;

/// A run, and the bytewise least and greatest of its first and last key.
#[derive(Drop)]
pub struct Ends {
    pub run: LiveRun,
    pub lowest: Blob,
    pub highest: Blob,
}

/// Whether a key comes before another one by their bytes.
pub fn is_less(a: &[u8], b: &[u8]) -> bool
    ensures { result ≡ comes_before a.now b.now }
{
    compare_keys(Direction::Forward, a, b).is_lt()
}

/// The ends of a run that was opened. Takes memory.
pub fn ends_of(alloc: Global, run: LiveRun, opened: &Run) -> Result<Ends, Memory>
    ensures run { IfOk result (λ e. e.run ≡ run) }
    ensures lowest { IfOk result (λ e. e.lowest ≡ lowest opened.now.index) }
    ensures highest { IfOk result (λ e. e.highest ≡ highest opened.now.index) }
{
    let first = opened.first_key();
    let last = opened.last_key();
    if is_less(last, first) {
        ends_between(alloc, run, last, first)
    } else {
        ends_between(alloc, run, first, last)
    }
}

fn ends_between(alloc: Global, run: LiveRun, lowest: &[u8], highest: &[u8]) -> Result<Ends, Memory>
    ensures run { IfOk result (λ e. e.run ≡ run) }
    ensures lowest { IfOk result (λ e. e.lowest ≡ lowest.now) }
    ensures highest { IfOk result (λ e. e.highest ≡ highest.now) }
{
    let lowest = Blob::from_slice(alloc, lowest)?;
    let highest = Blob::from_slice(alloc, highest)?;
    Ok(Ends {
        run,
        lowest,
        highest,
    })
}
