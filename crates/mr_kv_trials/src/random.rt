//! Random steps of a store, and the plain list beside it.
ghost use Rattle.std.specs.Prelude.{OnOk, IfOk};
ghost use Rattle.mr_kv_trials.specs.Silent.{IsReadyOver};

use crate::beside::{Beside, Noted, low};
use crate::calls::{judge, prepare, settle, write};
use crate::dice::Dice;
use crate::fresh::fresh;
use crate::made::add;
use crate::untold::Untold;
use mr_base::{Memory, Stop};
use mr_kv::Kv;
use mr_wal::Batch;
use sqlite_items::Items;
use std::alloc::Global;

/// The keys are the bytes below this one.
pub const KEYS: u8 = 6;

/// How many steps there are.
const STEPS: u64 = 40;

/// One to three versions of the next number, each of another key, in families 2 to 4.
fn drafted(alloc: Global, dice: &mut Dice, sequence: u64) -> Result<Vec<Noted>, Stop> {
    let mut all = Vec::new(alloc);
    let first = dice.roll(KEYS);
    for i in 0..dice.roll(3).saturating_add(1) {
        all.push(Noted {
            family: (dice.roll(3) as u32).saturating_add(2),
            key: first.saturating_add(i) % KEYS,
            sequence,
            put: dice.roll(4) > 0,
        })?;
    }
    Ok(all)
}

fn batch_of(alloc: Global, noted: &[Noted]) -> Result<Batch, Memory> {
    let mut batch = Items::new(alloc);
    for one in noted {
        let value = [low(one.sequence)];
        let put = if one.put {
            Some(value.as_slice())
        } else {
            None
        };
        add(alloc, &mut batch, one.family, &[one.key], put)?;
    }
    Ok(batch)
}

fn write_noted(
    alloc: Global,
    disk: &mut Untold,
    kv: &mut Kv,
    beside: &mut Beside,
    noted: &[Noted],
) -> Result<(), Stop>
    requires { IsReadyOver disk.old.host kv.old }
    ensures { OnOk result (IsReadyOver disk.new.host kv.new) }
{
    beside.count(0, beside.last, noted)?;
    write(alloc, disk, kv, batch_of(alloc, noted)?)
}

/// The commit of a batch that is prepared under a sequence number.
fn commit_of(sequence: u64) -> u64 {
    sequence.saturating_add(100)
}

fn prepare_noted(
    alloc: Global,
    disk: &mut Untold,
    kv: &mut Kv,
    beside: &mut Beside,
    noted: &[Noted],
    decides: bool,
) -> Result<(), Stop>
    requires { IsReadyOver disk.old.host kv.old }
    ensures { OnOk result (IsReadyOver disk.new.host kv.new) }
{
    let commit = commit_of(beside.last);
    if decides {
        beside.count(commit, beside.last, noted)?;
    }
    prepare(alloc, disk, kv, commit, batch_of(alloc, noted)?)?;
    judge(disk, kv, decides);
    Ok(())
}

/// A settling, a plain batch, or one that is prepared and judged.
fn step(
    alloc: Global,
    disk: &mut Untold,
    kv: &mut Kv,
    beside: &mut Beside,
    dice: &mut Dice,
) -> Result<(), Stop>
    requires { IsReadyOver disk.old.host kv.old }
    ensures { OnOk result (IsReadyOver disk.new.host kv.new) }
{
    let kind = dice.roll(8);
    if kind == 7 {
        return settle(alloc, disk, kv);
    }
    beside.last = beside.last.saturating_add(1);
    let noted = drafted(alloc, dice, beside.last)?;
    if kind < 4 {
        write_noted(alloc, disk, kv, beside, &noted)
    } else {
        prepare_noted(alloc, disk, kv, beside, &noted, kind < 6)
    }
}

/// Names families 2 to 4, of which 3 is in reverse.
fn names(alloc: Global) -> Result<Batch, Memory> {
    let mut batch = Items::new(alloc);
    add(alloc, &mut batch, 0, &[0, 0, 0, 3, 0, 0, 0, 2], Some(b"a"))?;
    add(
        alloc,
        &mut batch,
        0,
        &[0, 0, 0, 3, 0, 0, 0, 3],
        Some(b"rev:b"),
    )?;
    add(alloc, &mut batch, 0, &[0, 0, 0, 3, 0, 0, 0, 4], Some(b"c"))?;
    Ok(batch)
}

/// A version of such a name in the list, where 255 stands for its key.
const NAME: Noted = Noted {
    family: 0,
    key: 255,
    sequence: 1,
    put: true,
};

/// A store behind these steps, and the list beside it.
pub fn run(alloc: Global, disk: &mut Untold, beside: &mut Beside, seed: u64) -> Result<Kv, Stop>
    ensures { IfOk result (IsReadyOver disk.new.host) }
{
    let mut kv = fresh(alloc, disk, 0)?;
    write(alloc, disk, &mut kv, names(alloc)?)?;
    beside.last = 1;
    beside.count(0, 1, &[NAME, NAME, NAME])?;
    let mut dice = Dice::new(seed);
    'stepping: for _ in 0..STEPS {
        step(alloc, disk, &mut kv, beside, &mut dice)?;
    }
    Ok(kv)
}
