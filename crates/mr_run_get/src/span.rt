//! Where the blocks of a run stand.
ghost use Rattle.std.specs.Prelude.{◌≡◌, ◌<◌, ◌≤◌, length, get_or, IfSome};
ghost use Rattle.mr_run_open.specs.Runs.{no_block};
ghost use Rattle.mr_run_get.specs.Get.{span_of as span, between, sizes};

use mr_block_cache::FileSpan;
use mr_run_open::Run;

pub fn span_of(run: &Run, i: usize) -> FileSpan
    requires { i < length run.now.index.blocks }
    ensures { result ≡ span run.now.file (get_or run.now.index.blocks i no_block) }
{
    let block = run.place_of_block(i);
    FileSpan {
        file: run.info().file,
        place: block.place,
        size: block.size,
    }
}

/// How many bytes the blocks from one up to another have.
pub fn size_between(run: &Run, first: usize, behind: usize) -> Option<usize>
    requires order { first ≤ behind }
    requires within { behind ≤ length run.now.index.blocks }
    ensures { IfSome result (λ n. n ≡ sizes (between first behind run.now.index.blocks)) }
{
    let mut total = 0usize;
    'adding: for i in first..behind {
        total = total.checked_add(run.place_of_block(i).size as usize)?;
    }
    Some(total)
}
