//! Which blocks a cache lacks.
ghost use Rattle.std.specs.Prelude.{◌≡◌, ◌<◌, ◌≤◌, ℕ, length, get_or, IsSome};
ghost use Rattle.mr_block_cache.specs.Cache.{held};
ghost use Rattle.mr_run_open.specs.Runs.{no_block};
ghost use Rattle.mr_run_get.specs.Get.{span_of as span, AllHeld};

use crate::span::span_of;
use mr_block_cache::BlockCache;
use mr_run_open::Run;

/// The first block from one up to another that isn't held, or the other one.
pub fn first_lacking(run: &Run, cache: &BlockCache, first: usize, behind: usize) -> usize
    requires order { first ≤ behind }
    requires within { behind ≤ length run.now.index.blocks }
    ensures low { first ≤ result }
    ensures high { result ≤ behind }
    ensures held { AllHeld run.now cache.now first result }
    ensures lacks { result < behind → held (span run.now.file (get_or run.now.index.blocks result no_block)) cache.now ≡ Rattle.std.specs.Prelude.None }
{
    'seeking: for i in first..behind {
        if !cache.holds(span_of(run, i)) {
            return i;
        }
    }
    behind
}
