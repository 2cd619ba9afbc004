//! What the edits of a manifest add up to.
ghost use Rattle.std.specs.Prelude.{◌≡◌, IfOk, OnOk};
ghost use Rattle.mr_manifest.specs.Live.{no_live, apply, live_after, without};

use crate::edit::Edit;
use mr_base::Memory;
use sqlite_items::Items;
use std::alloc::Global;

/// A live run: its family, its level (0 where it is a newest one), its file, the file's length in bytes, and the count
/// of its entries.
#[derive(Clone, Copy, Drop)]
pub struct LiveRun {
    pub family: u32,
    pub level: u8,
    pub file: u64,
    pub length: u64,
    pub entries: u64,
}

/// Runs in the order in which they were added.
pub type LiveRunList = Items<LiveRun>;

/// The live runs, the live engine log, a place in the binary log and the count of commits before it, the next file
/// number, the last sequence number, and the folder's format. Without an edit there are no runs, and each number is 0.
#[derive(Drop)]
pub struct Live {
    pub runs: LiveRunList,
    pub log: u64,
    pub place: u64,
    pub commits: u64,
    pub next_file: u64,
    pub last_sequence: u64,
    pub format: u32,
}

/// What there is without an edit.
pub(crate) fn empty_live(alloc: Global) -> Live
    ensures { result ≡ no_live }
{
    Live {
        runs: Items::new(alloc),
        log: 0,
        place: 0,
        commits: 0,
        next_file: 0,
        last_sequence: 0,
        format: 0,
    }
}

/// A copy.
pub(crate) fn copy_live(alloc: Global, live: &Live) -> Result<Live, Memory>
    ensures { IfOk result (λ copy. copy ≡ live.now) }
{
    let runs = Items::from_slice(alloc, live.runs.as_slice())?;
    Ok(Live {
        runs,
        log: live.log,
        place: live.place,
        commits: live.commits,
        next_file: live.next_file,
        last_sequence: live.last_sequence,
        format: live.format,
    })
}

/// The runs but those in this file.
fn runs_without(alloc: Global, runs: &[LiveRun], file: u64) -> Result<LiveRunList, Memory>
    ensures { IfOk result (λ kept. kept ≡ without file runs.now) }
{
    let mut kept = Items::new(alloc);
    'keeping: for run in runs {
        if run.file != file {
            kept.push(*run)?;
        }
    }
    Ok(kept)
}

/// Does one edit.
fn apply_edit(alloc: Global, live: &mut Live, edit: &Edit) -> Result<(), Memory>
    ensures { OnOk result (live.new ≡ apply edit.now live.old) }
{
    match *edit {
        Edit::RunAdded {
            family,
            level,
            file,
            length,
            entries,
        } => {
            let run = LiveRun {
                family,
                level,
                file,
                length,
                entries,
            };
            live.runs.push(run)?;
        }
        Edit::RunDropped(file) => live.runs = runs_without(alloc, live.runs.as_slice(), file)?,
        Edit::LiveLog(file) => live.log = file,
        Edit::BinlogPlace { place, commits } => {
            live.place = place;
            live.commits = commits;
        }
        Edit::NextFile(file) => live.next_file = file,
        Edit::LastSequence(sequence) => live.last_sequence = sequence,
        Edit::Format(format) => live.format = format,
    }
    Ok(())
}

/// Does edits, in order.
pub(crate) fn apply_edits(alloc: Global, live: &mut Live, edits: &[Edit]) -> Result<(), Memory>
    ensures { OnOk result (live.new ≡ live_after edits.now live.old) }
{
    'applying: for edit in edits {
        apply_edit(alloc, live, edit)?;
    }
    Ok(())
}
