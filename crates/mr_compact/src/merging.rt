//! The merge of runs. One version is held at a time: the one that the cursor stands on.
ghost use Rattle.std.specs.Prelude.{◌≡◌, ◌≤◌, ◌+◌, ◌^◌, ◌∷◌, [], ℕ, List, Option, None, Some, IsTrue, IsSome, IfSome, IfOk, IfErr, OnOk, length, is_some, true, false, ◌&&◌, not, nat_lt};
ghost use Rattle.std.specs.Option.{option_map};
ghost use Rattle.mr_base.specs.Disk.{State, Tells, seen};
ghost use Rattle.mr_base.specs.declared.stop.Stop.TheVariants.{Memory as MemoryStop};
ghost use Rattle.mr_iter.specs.Versions.{Version, as_version};
ghost use Rattle.mr_iter.specs.Snapshots.{is_skipped};
ghost use Rattle.mr_iter.specs.Cursors.{left};
ghost use Rattle.mr_iter.specs.RunOuts.{MayFail, with_version};
ghost use Rattle.mr_compact.specs.Kept.{kept_from, kept_versions, runs_from, runs_of, run_limit};
ghost use Rattle.mr_compact.specs.Merges.{Merges, MayEnd, AreBefore, AreNumbered, AreWritten, touched_files};
ghost use Rattle.mr_compact.specs.Writing.{Writes, Wrote, IsSynced, IsReady, IsBegun, Stands, Begins, touched, passed_key, runs_behind, is_older, passing, put_of};

use mr_base::{Disk, Stop};
use mr_iter::{Cursor, Filter, Listed, RunInfo, RunOut, step};
use sqlite_items::Items;
use std::alloc::Global;

/// A run is closed at a key's end past so many bytes.
const RUN_LIMIT: u64 = 2_097_152;

/// Runs, one behind another.
pub type RunList = Items<RunInfo>;

/// A key that was passed, if one was.
#[derive(Drop)]
struct Passed {
    key: Vec<u8>,
    is: bool,
}

/// What a merge has written: the number of the first file, the runs that are done, and the last key of the run that has begun.
#[derive(Drop)]
struct Written {
    first_file: u64,
    runs: RunList,
    last: Passed,
}

impl Passed {
    fn new(alloc: Global) -> Passed
        ensures is { result.is ≡ false }
        ensures key { passed_key result ≡ None }
    {
        Passed {
            key: Vec::new(alloc),
            is: false,
        }
    }

    fn is_of(&self, key: &[u8]) -> bool
        ensures { result ≡ is_skipped (passed_key self.now) key.now }
    {
        self.is && self.key.as_slice().cmp(key).is_eq()
    }

    /// Takes memory; after an error no key was passed.
    fn set(&mut self, key: &[u8]) -> Result<(), Stop>
        ensures stops { IfErr result (λ e. e ≡ MemoryStop) }
        ensures is { OnOk result (passed_key self.new ≡ Some key.now) }
        ensures stays { OnOk result (self.new.is ≡ true) }
    {
        self.is = false;
        self.key.clear();
        match self.key.extend_from_slice(key) {
            Ok(()) => {}
            Err(_) => return Err(Stop::Memory),
        }
        self.is = true;
        Ok(())
    }
}

/// Ends the run that has begun. Takes memory.
fn close_run<D: Disk, W: RunOut<D>>(
    disk: &mut D,
    out: &mut W,
    written: &mut Written,
) -> Result<(), Stop>
    requires begun { IsTrue written.old.last.is }
    requires ready { IsReady (W.stands out.old) (D.disk disk.old) (W.out out.old) written.old }
    ensures first { written.new.first_file ≡ written.old.first_file }
    ensures direction { (W.out out.new).direction ≡ (W.out out.old).direction }
    ensures writes { Writes written.old.first_file (length written.old.runs + 1) 1 (D.disk disk.old) (D.disk disk.new) }
    ensures stops { IfErr result (MayFail (D.disk disk.old) (D.disk disk.new)) }
    ensures closed { written.new.last.is ≡ false }
    ensures one { OnOk result (length written.new.runs ≡ length written.old.runs + 1) }
    ensures ready { OnOk result (IsReady (W.stands out.new) (D.disk disk.new) (W.out out.new) written.new) }
    ensures holds { (vs : List Version) (all : List (List Version)) → Tells (D.disk disk.old) → Stands (W.run (W.out out.old).direction) (D.disk disk.old) (W.out out.old) written.old (λ run. run ∷ runs_from [] vs) vs all → OnOk result (Stands (W.run (W.out out.old).direction) (D.disk disk.new) (W.out out.new) written.new (runs_behind vs) vs all) }
{
    written.last.is = false;
    let info = out.finish(disk)?;
    written.runs.push(info)?;
    Ok(())
}

/// Whether the run that has begun is past its limit and has no version of the key.
fn is_full<D: Disk, W: RunOut<D>>(out: &W, written: &Written, key: &[u8]) -> bool
    ensures { result ≡ (written.now.last.is && nat_lt run_limit (W.out out.now).bytes && not (is_skipped (passed_key written.now.last) key.now)) }
{
    written.last.is && out.bytes() > RUN_LIMIT && !written.last.is_of(key)
}

/// Ends the run that has begun where it is past its limit and has no version of the key. Takes memory.
fn close_full<D: Disk, W: RunOut<D>>(
    disk: &mut D,
    out: &mut W,
    written: &mut Written,
    key: &[u8],
) -> Result<(), Stop>
    requires ready { IsReady (W.stands out.old) (D.disk disk.old) (W.out out.old) written.old }
    ensures first { written.new.first_file ≡ written.old.first_file }
    ensures direction { (W.out out.new).direction ≡ (W.out out.old).direction }
    ensures writes { Writes written.old.first_file (touched written.old) 1 (D.disk disk.old) (D.disk disk.new) }
    ensures stops { IfErr result (MayFail (D.disk disk.old) (D.disk disk.new)) }
    ensures touches { OnOk result (touched written.new ≡ touched written.old) }
    ensures synced { OnOk result (IsSynced written.old written.new (D.disk disk.old) (D.disk disk.new)) }
    ensures ready { OnOk result (IsReady (W.stands out.new) (D.disk disk.new) (W.out out.new) written.new) }
    ensures holds { (v : Version) (vs : List Version) (all : List (List Version)) → v.key ≡ key.now → Tells (D.disk disk.old) → Stands (W.run (W.out out.old).direction) (D.disk disk.old) (W.out out.old) written.old (runs_behind (v ∷ vs)) (v ∷ vs) all → OnOk result (Stands (W.run (W.out out.old).direction) (D.disk disk.new) (W.out out.new) written.new (λ run. runs_from (with_version run v) vs) (v ∷ vs) all) }
{
    if !is_full::<D, W>(out, written, key) {
        return Ok(());
    }
    close_run::<D, W>(disk, out, written)
}

/// Begins a run where none has begun.
fn begin_run<D: Disk, W: RunOut<D>>(out: &mut W, written: &Written)
    requires numbers { written.now.first_file ≤ 2 ^ 63 }
    ensures direction { (W.out out.new).direction ≡ (W.out out.old).direction }
    ensures begun { (s : State) → IsReady (W.stands out.old) s (W.out out.old) written.now → IsBegun (W.stands out.new) s (W.out out.new) written.now }
    ensures holds { (s : State) (more : List Version → List (List Version)) (rest : List Version) (all : List (List Version)) → Stands (W.run (W.out out.old).direction) s (W.out out.old) written.now more rest all → Begins (W.run (W.out out.old).direction) s (W.out out.new) written.now more rest all }
{
    if written.last.is {
        return;
    }
    let done = written.runs.as_slice();
    out.begin(written.first_file + done.len() as u64);
}

/// Adds a version to the run that has begun. Takes memory.
fn append<D: Disk, W: RunOut<D>>(
    disk: &mut D,
    out: &mut W,
    written: &mut Written,
    key: &[u8],
    sequence: u64,
    put: Option<&[u8]>,
) -> Result<(), Stop>
    requires begun { IsBegun (W.stands out.old) (D.disk disk.old) (W.out out.old) written.old }
    ensures first { written.new.first_file ≡ written.old.first_file }
    ensures runs { written.new.runs ≡ written.old.runs }
    ensures direction { (W.out out.new).direction ≡ (W.out out.old).direction }
    ensures writes { Writes written.old.first_file (length written.old.runs + 1) 0 (D.disk disk.old) (D.disk disk.new) }
    ensures stops { IfErr result (MayFail (D.disk disk.old) (D.disk disk.new)) }
    ensures last { OnOk result (written.new.last.is ≡ true) }
    ensures ready { OnOk result (IsReady (W.stands out.new) (D.disk disk.new) (W.out out.new) written.new) }
    ensures holds { (vs : List Version) (all : List (List Version)) → Tells (D.disk disk.old) → Begins (W.run (W.out out.old).direction) (D.disk disk.old) (W.out out.old) written.old (λ run. runs_from (with_version run (as_version key.now sequence (option_map (λ v. v.now) put.entry))) vs) (as_version key.now sequence (option_map (λ v. v.now) put.entry) ∷ vs) all → OnOk result (Stands (W.run (W.out out.old).direction) (D.disk disk.new) (W.out out.new) written.new (runs_behind vs) vs all) }
{
    out.add(disk, key, sequence, put)?;
    written.last.set(key)
}

/// Adds a version, to a new run where none has begun, and where the one that has is past its limit and has no version of the
/// key. Takes memory.
fn add_version<D: Disk, W: RunOut<D>>(
    disk: &mut D,
    out: &mut W,
    written: &mut Written,
    key: &[u8],
    sequence: u64,
    put: Option<&[u8]>,
) -> Result<(), Stop>
    requires numbers { written.old.first_file ≤ 2 ^ 63 }
    requires ready { IsReady (W.stands out.old) (D.disk disk.old) (W.out out.old) written.old }
    ensures first { written.new.first_file ≡ written.old.first_file }
    ensures direction { (W.out out.new).direction ≡ (W.out out.old).direction }
    ensures part { Writes written.old.first_file (touched written.old + 1) 1 (D.disk disk.old) (D.disk disk.new) }
    ensures stops { IfErr result (MayFail (D.disk disk.old) (D.disk disk.new)) }
    ensures wrote { OnOk result (Wrote written.old written.new (D.disk disk.old) (D.disk disk.new)) }
    ensures ready { OnOk result (IsReady (W.stands out.new) (D.disk disk.new) (W.out out.new) written.new) }
    ensures holds { (vs : List Version) (all : List (List Version)) → Tells (D.disk disk.old) → Stands (W.run (W.out out.old).direction) (D.disk disk.old) (W.out out.old) written.old (runs_behind (as_version key.now sequence (option_map (λ v. v.now) put.entry) ∷ vs)) (as_version key.now sequence (option_map (λ v. v.now) put.entry) ∷ vs) all → OnOk result (Stands (W.run (W.out out.old).direction) (D.disk disk.new) (W.out out.new) written.new (runs_behind vs) vs all) }
{
    close_full::<D, W>(disk, out, written, key)?;
    begin_run::<D, W>(out, written);
    append::<D, W>(disk, out, written, key, sequence, put)
}

/// Whether the version that the cursor stands on isn't past the oldest number and a newer such one of its key was passed. Else
/// it is the newest such one itself, or past the number. Takes memory.
fn passes<C: Listed>(cursor: &C, oldest: u64, skip: &mut Passed) -> Result<bool, Stop>
    requires { IsSome (C.cursor cursor.now).current }
    ensures stops { IfErr result (λ e. e ≡ MemoryStop) }
    ensures older { IfSome (C.cursor cursor.now).current (λ v. IfOk result (λ older. older ≡ is_older oldest (passed_key skip.old) v)) }
    ensures key { IfSome (C.cursor cursor.now).current (λ v. OnOk result (passed_key skip.new ≡ passing oldest (passed_key skip.old) v)) }
{
    if cursor.sequence() > oldest {
        return Ok(false);
    }
    if skip.is_of(cursor.key()) {
        return Ok(true);
    }
    match skip.set(cursor.key()) {
        Ok(()) => Ok(false),
        Err(stop) => Err(stop),
    }
}

/// The put of the version that the cursor stands on, as it is written: one that isn't past the oldest number stays where the
/// filter keeps it.
fn put_at<'a, C: Listed, F: Filter>(cursor: &'a C, filter: &F, oldest: u64) -> Option<&'a [u8]>
    requires { IsSome (C.cursor cursor.now).current }
    ensures { IfSome (C.cursor cursor.now).current (λ v. option_map (λ x. x.now) result ≡ put_of oldest (F.keeps filter.now) v) }
{
    if !cursor.is_put() {
        return None;
    }
    if cursor.sequence() > oldest || filter.keep(cursor.key(), cursor.value()) {
        return Some(cursor.value());
    }
    None
}

/// Writes what stands in the place of the version that the cursor is on. Takes memory.
fn write_version<D: Disk, C: Cursor<D>, W: RunOut<D>, F: Filter>(
    disk: &mut D,
    cursor: &C,
    out: &mut W,
    filter: &F,
    oldest: u64,
    bottom: bool,
    written: &mut Written,
    skip: &mut Passed,
) -> Result<(), Stop>
    requires stands { IsSome (C.cursor cursor.now).current }
    requires numbers { written.old.first_file ≤ 2 ^ 63 }
    requires ready { IsReady (W.stands out.old) (D.disk disk.old) (W.out out.old) written.old }
    ensures first { written.new.first_file ≡ written.old.first_file }
    ensures direction { (W.out out.new).direction ≡ (W.out out.old).direction }
    ensures part { Writes written.old.first_file (touched written.old + 1) 1 (D.disk disk.old) (D.disk disk.new) }
    ensures stops { IfErr result (MayFail (D.disk disk.old) (D.disk disk.new)) }
    ensures wrote { OnOk result (Wrote written.old written.new (D.disk disk.old) (D.disk disk.new)) }
    ensures ready { OnOk result (IsReady (W.stands out.new) (D.disk disk.new) (W.out out.new) written.new) }
    ensures holds { (v : Version) (vs : List Version) (all : List (List Version)) → (C.cursor cursor.now).current ≡ Some v → Tells (D.disk disk.old) → Stands (W.run (W.out out.old).direction) (D.disk disk.old) (W.out out.old) written.old (runs_behind (kept_from oldest bottom (F.keeps filter.now) (passed_key skip.old) (v ∷ vs))) (kept_from oldest bottom (F.keeps filter.now) (passed_key skip.old) (v ∷ vs)) all → OnOk result (Stands (W.run (W.out out.old).direction) (D.disk disk.new) (W.out out.new) written.new (runs_behind (kept_from oldest bottom (F.keeps filter.now) (passed_key skip.new) vs)) (kept_from oldest bottom (F.keeps filter.now) (passed_key skip.new) vs) all) }
{
    if passes::<C>(cursor, oldest, skip)? {
        return Ok(());
    }
    let put = put_at::<C, F>(cursor, filter, oldest);
    if bottom && put.is_none() && cursor.sequence() <= oldest {
        return Ok(());
    }
    add_version::<D, W>(disk, out, written, cursor.key(), cursor.sequence(), put)
}

/// Ends the run that has begun, if one has. Takes memory.
fn close_last<D: Disk, W: RunOut<D>>(
    disk: &mut D,
    out: &mut W,
    written: &mut Written,
) -> Result<(), Stop>
    requires ready { IsReady (W.stands out.old) (D.disk disk.old) (W.out out.old) written.old }
    ensures first { written.new.first_file ≡ written.old.first_file }
    ensures direction { (W.out out.new).direction ≡ (W.out out.old).direction }
    ensures writes { Writes written.old.first_file (touched written.old) 1 (D.disk disk.old) (D.disk disk.new) }
    ensures synced { (D.disk disk.new).syncs + length written.old.runs ≤ (D.disk disk.old).syncs + touched written.old }
    ensures stops { IfErr result (MayFail (D.disk disk.old) (D.disk disk.new)) }
    ensures touches { OnOk result (length written.new.runs ≡ touched written.old) }
    ensures ready { OnOk result (IsReady (W.stands out.new) (D.disk disk.new) (W.out out.new) written.new) }
    ensures holds { (all : List (List Version)) → Tells (D.disk disk.old) → Stands (W.run (W.out out.old).direction) (D.disk disk.old) (W.out out.old) written.old (runs_behind []) [] all → OnOk result (AreWritten (W.run (W.out out.old).direction) (D.disk disk.new) written.new.runs all) }
{
    if !written.last.is {
        return Ok(());
    }
    close_run::<D, W>(disk, out, written)
}

/// Merges the versions of a cursor, which stands at the beginning of its list, into runs in the files from `first_file` on,
/// which is at most 2^63. The cursor and `out` have one direction.
///
/// Per key the versions past `oldest` stay, and the newest of the others, which becomes a deletion mark where the filter doesn't
/// keep it; at the `bottom` it is left out where it is a deletion mark. A run is closed at a key's end past 2,097,152 bytes of
/// entries. One version is held at a time. Answers `Disk`, `Damaged` at an offence of the cursor's files, or `Memory`.
pub fn merge_runs<D: Disk, C: Cursor<D>, W: RunOut<D>, F: Filter>(
    alloc: Global,
    disk: &mut D,
    cursor: &mut C,
    out: &mut W,
    filter: &F,
    oldest: u64,
    bottom: bool,
    first_file: u64,
) -> Result<RunList, Stop>
    requires direction { (W.out out.old).direction ≡ (C.cursor cursor.old).direction }
    requires beginning { Tells (D.disk disk.old) → C.whole cursor.old (seen (D.disk disk.old)) → left (C.cursor cursor.old) (seen (D.disk disk.old)) ≡ (C.cursor cursor.old).versions (seen (D.disk disk.old)) }
    requires numbers { first_file ≤ 2 ^ 63 }
    ensures direction { (W.out out.new).direction ≡ (W.out out.old).direction }
    ensures merges { Merges first_file (touched_files result (C.cursor cursor.old).steps) (C.offends cursor.old) (C.offends cursor.new) (C.whole cursor.old) (C.whole cursor.new) (C.steady cursor.old) (C.steady cursor.new) (C.cursor cursor.old) (C.cursor cursor.new) (D.disk disk.old) (D.disk disk.new) }
    ensures stops { IfErr result (MayEnd (C.offends cursor.old) first_file (C.cursor cursor.old).files (D.disk disk.old) (D.disk disk.new)) }
    ensures at_end { OnOk result ((C.cursor cursor.new).current ≡ None) }
    ensures numbered { IfOk result (λ runs. AreNumbered first_file runs) }
    ensures written { Tells (D.disk disk.old) → AreBefore first_file (C.cursor cursor.old).files → C.whole cursor.old (seen (D.disk disk.old)) → IfOk result (λ runs. AreWritten (W.run (C.cursor cursor.old).direction) (D.disk disk.new) runs (runs_of (kept_versions oldest bottom (F.keeps filter.now) ((C.cursor cursor.old).versions (seen (D.disk disk.old)))))) }
{
    let mut written = Written {
        first_file,
        runs: Items::new(alloc),
        last: Passed::new(alloc),
    };
    let mut skip = Passed::new(alloc);
    'merging: while !cursor.at_end() {
        write_version::<D, C, W, F>(
            disk,
            cursor,
            out,
            filter,
            oldest,
            bottom,
            &mut written,
            &mut skip,
        )?;
        step::<D, C>(disk, cursor)?;
    }
    close_last::<D, W>(disk, out, &mut written)?;
    let Written { runs, .. } = written;
    Ok(runs)
}
