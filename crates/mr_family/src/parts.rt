//! The cursors of the parts of a family.
ghost use Rattle.std.specs.Prelude.{◌≡◌, ◌⊎◌, ◌++◌, ◌∷◌, [], ℕ, map, IfOk, OnOk};
ghost use Rattle.std.specs.List.{AllByRecursion};
ghost use Rattle.mr_base.specs.Disk.{Image};
ghost use Rattle.mr_iter.specs.Children.{AnyOf};
ghost use Rattle.mr_iter.specs.Versions.{IsInOrder, joined};
ghost use Rattle.mr_run_get.specs.Get.{IsOffenceIn};
ghost use Rattle.mr_levels.specs.Levels.{AreLive, AreOfDirection, AreApart, LieApart, AreWhole, HasOffence, by_last_key};
ghost use Rattle.mr_family.specs.Parts.{runs_at, lasts_of, level_at, parts_of};

use mr_base::{Blob, Direction, Memory};
use mr_chain::Chain;
use mr_iter::{Listed, OneOf};
use mr_levels::Levels;
use mr_memtable::{MemCursor, Memtable};
use mr_run_cursor::PinnedCursor;
use mr_run_open::Run;
use std::alloc::Global;

/// A cursor over a run, or over those of a level.
pub type RunPart<'a> = OneOf<PinnedCursor<'a>, Chain<PinnedCursor<'a>>>;

/// A cursor over one part of a family.
pub type Part<'a> = OneOf<MemCursor<'a>, RunPart<'a>>;

/// The last keys of these runs. Takes memory.
fn last_keys(alloc: Global, runs: &[Run]) -> Result<Vec<Blob>, Memory>
    ensures { IfOk result (λ v. v.items ≡ lasts_of runs.now) }
{
    let mut lasts = Vec::new(alloc);
    'gathering: for i in 0..runs.len() {
        let last = Blob::from_slice(alloc, runs[i].last_key())?;
        match lasts.push(last) {
            Ok(()) => {}
            Err(_) => return Err(Memory),
        }
    }
    Ok(lasts)
}

/// The cursors over these runs. Takes memory.
fn run_cursors<'a>(alloc: Global, runs: &'a [Run]) -> Result<Vec<PinnedCursor<'a>>, Memory>
    ensures state { IfOk result (λ v. map ⟦<PinnedCursor<'a> as Listed>⟧.cursor v.items ≡ runs_at runs.now) }
    ensures whole { (image : Image) → AreLive image runs.now → IfOk result (λ v. AllByRecursion (λ c. ⟦<PinnedCursor<'a> as Listed>⟧.whole c image) v.items) }
    ensures offends { (image : Image) (file at : ℕ) → IfOk result (λ v. AnyOf (λ c. ⟦<PinnedCursor<'a> as Listed>⟧.offends c image file at) v.items → AnyOf (λ r. IsOffenceIn r r.index.blocks image file at) runs.now) }
{
    let mut cursors = Vec::new(alloc);
    'gathering: for i in 0..runs.len() {
        match cursors.push(PinnedCursor::new(alloc, &runs[i])) {
            Ok(()) => {}
            Err(_) => return Err(Memory),
        }
    }
    Ok(cursors)
}

/// The cursor over the runs of a level. Takes memory.
fn level_cursor<'a>(
    alloc: Global,
    direction: Direction,
    runs: &'a [Run],
) -> Result<Chain<PinnedCursor<'a>>, Memory>
    requires one { AreOfDirection direction runs.now }
    requires ordered { IsInOrder (by_last_key direction) runs.now }
    ensures state { IfOk result (λ c. ⟦<Chain<PinnedCursor<'a>> as Listed>⟧.cursor c ≡ level_at direction runs.now) }
    ensures whole { (image : Image) → AreLive image runs.now → AreApart direction runs.now → IfOk result (λ c. ⟦<Chain<PinnedCursor<'a>> as Listed>⟧.whole c image) }
    ensures offends { (image : Image) (file at : ℕ) → IfOk result (λ c. ⟦<Chain<PinnedCursor<'a>> as Listed>⟧.offends c image file at → AnyOf (λ r. IsOffenceIn r r.index.blocks image file at) runs.now) }
{
    let children = run_cursors(alloc, runs)?;
    let lasts = last_keys(alloc, runs)?;
    Ok(Chain::new(children, lasts, direction))
}

/// One more, behind the others. Takes memory.
fn push<T: Drop>(list: &mut Vec<T>, item: T) -> Result<(), Memory>
    ensures { OnOk result (list.new.items ≡ list.old.items ++ item ∷ []) }
{
    match list.push(item) {
        Ok(()) => Ok(()),
        Err(_) => Err(Memory),
    }
}

/// The cursors over these runs, one by one, behind others. Takes memory.
fn add_runs<'a, A: Listed + Drop, B: Listed + Drop>(
    alloc: Global,
    parts: &mut Vec<OneOf<A, OneOf<PinnedCursor<'a>, B>>>,
    runs: &'a [Run],
) -> Result<(), Memory>
    ensures state { OnOk result (map ⟦<OneOf<A, OneOf<PinnedCursor<'a>, B>> as Listed>⟧.cursor parts.new.items ≡ map ⟦<OneOf<A, OneOf<PinnedCursor<'a>, B>> as Listed>⟧.cursor parts.old.items ++ runs_at runs.now) }
    ensures whole { (image : Image) → AllByRecursion (λ c. ⟦<OneOf<A, OneOf<PinnedCursor<'a>, B>> as Listed>⟧.whole c image) parts.old.items → AreLive image runs.now → OnOk result (AllByRecursion (λ c. ⟦<OneOf<A, OneOf<PinnedCursor<'a>, B>> as Listed>⟧.whole c image) parts.new.items) }
    ensures offends { (image : Image) (file at : ℕ) → OnOk result (AnyOf (λ c. ⟦<OneOf<A, OneOf<PinnedCursor<'a>, B>> as Listed>⟧.offends c image file at) parts.new.items → AnyOf (λ c. ⟦<OneOf<A, OneOf<PinnedCursor<'a>, B>> as Listed>⟧.offends c image file at) parts.old.items ⊎ AnyOf (λ r. IsOffenceIn r r.index.blocks image file at) runs.now) }
{
    'gathering: for i in 0..runs.len() {
        let cursor = PinnedCursor::new(alloc, &runs[i]);
        push(parts, OneOf::Second(OneOf::First(cursor)))?;
    }
    Ok(())
}

/// The cursor over the runs of a level, behind others. Takes memory.
fn add_level<'a>(
    alloc: Global,
    parts: &mut Vec<Part<'a>>,
    direction: Direction,
    runs: &'a [Run],
) -> Result<(), Memory>
    requires one { AreOfDirection direction runs.now }
    requires ordered { IsInOrder (by_last_key direction) runs.now }
    ensures state { OnOk result (map ⟦<Part<'a> as Listed>⟧.cursor parts.new.items ≡ map ⟦<Part<'a> as Listed>⟧.cursor parts.old.items ++ level_at direction runs.now ∷ []) }
    ensures whole { (image : Image) → AllByRecursion (λ c. ⟦<Part<'a> as Listed>⟧.whole c image) parts.old.items → AreLive image runs.now → AreApart direction runs.now → OnOk result (AllByRecursion (λ c. ⟦<Part<'a> as Listed>⟧.whole c image) parts.new.items) }
    ensures offends { (image : Image) (file at : ℕ) → OnOk result (AnyOf (λ c. ⟦<Part<'a> as Listed>⟧.offends c image file at) parts.new.items → AnyOf (λ c. ⟦<Part<'a> as Listed>⟧.offends c image file at) parts.old.items ⊎ AnyOf (λ r. IsOffenceIn r r.index.blocks image file at) runs.now) }
{
    let cursor = level_cursor(alloc, direction, runs)?;
    push(parts, OneOf::Second(OneOf::Second(cursor)))
}

/// The cursors over levels 1 to 4, behind others. Takes memory.
fn add_levels<'a>(
    alloc: Global,
    parts: &mut Vec<Part<'a>>,
    levels: &'a Levels,
) -> Result<(), Memory>
    ensures state { OnOk result (map ⟦<Part<'a> as Listed>⟧.cursor parts.new.items ≡ map ⟦<Part<'a> as Listed>⟧.cursor parts.old.items ++ map (level_at levels.now.direction) levels.now.deeper) }
    ensures whole { (image : Image) → AllByRecursion (λ c. ⟦<Part<'a> as Listed>⟧.whole c image) parts.old.items → AreLive image (joined levels.now.deeper) → LieApart levels.now → OnOk result (AllByRecursion (λ c. ⟦<Part<'a> as Listed>⟧.whole c image) parts.new.items) }
    ensures offends { (image : Image) (file at : ℕ) → OnOk result (AnyOf (λ c. ⟦<Part<'a> as Listed>⟧.offends c image file at) parts.new.items → AnyOf (λ c. ⟦<Part<'a> as Listed>⟧.offends c image file at) parts.old.items ⊎ AnyOf (λ r. IsOffenceIn r r.index.blocks image file at) (joined levels.now.deeper)) }
{
    let direction = levels.direction();
    add_level(alloc, parts, direction, levels.level(1))?;
    add_level(alloc, parts, direction, levels.level(2))?;
    add_level(alloc, parts, direction, levels.level(3))?;
    add_level(alloc, parts, direction, levels.level(4))
}

/// The cursors over all parts of a family. Takes memory.
pub fn part_cursors<'a>(
    alloc: Global,
    memtable: &'a Memtable,
    levels: &'a Levels,
) -> Result<Vec<Part<'a>>, Memory>
    ensures state { IfOk result (λ v. map ⟦<Part<'a> as Listed>⟧.cursor v.items ≡ parts_of memtable.now levels.now) }
    ensures whole { (image : Image) → AreWhole levels.now image → IfOk result (λ v. AllByRecursion (λ c. ⟦<Part<'a> as Listed>⟧.whole c image) v.items) }
    ensures offends { (image : Image) (file at : ℕ) → IfOk result (λ v. AnyOf (λ c. ⟦<Part<'a> as Listed>⟧.offends c image file at) v.items → HasOffence levels.now image file at) }
{
    let mut parts = Vec::new(alloc);
    push(&mut parts, OneOf::First(memtable.cursor()))?;
    add_runs(alloc, &mut parts, levels.newest())?;
    add_levels(alloc, &mut parts, levels)?;
    Ok(parts)
}
