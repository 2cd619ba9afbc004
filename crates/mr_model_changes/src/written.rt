//! What a writing statement leaves.

ghost use Rattle.std.specs.Prelude.{◌≡◌};
ghost use Rattle.mr_model_changes.specs.Leaving.{left_of};

use mr_spec::Progress;
use mr_types::ChangeList;

/// What a writing statement leaves: its changes, the next hidden number, and the count of rows for the
/// reply.
#[derive(Drop)]
pub struct Written {
    pub changes: ChangeList,
    pub next: u64,
    pub count: u64,
}

/// What a statement leaves that is this far.
pub fn left_of_progress(progress: Progress) -> Written
    ensures { result ≡ left_of progress }
{
    let Progress {
        rows: _rows,
        changes,
        next,
        count,
    } = progress;
    Written {
        changes,
        next,
        count,
    }
}
