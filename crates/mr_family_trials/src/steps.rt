//! Steps of a family, each a version of a key, and what is to be seen of them.
ghost use Rattle.std.specs.Prelude.{◌≡◌, ◌≤◌, ◌<◌, OnOk};
ghost use Rattle.mr_base.specs.Disk.{Tells, file_of};
ghost use Rattle.mr_memhost.specs.Host.{disk_state};
ghost use Rattle.mr_run_writer.specs.Drafts.{Stands};

use mr_base::{Direction, Memory, Stop};
use mr_family::Family;
use mr_iter::RunInfo;
use mr_memhost::MemHost;
use mr_run_writer::RunWriter;
use std::alloc::Global;

/// The keys are the bytes below this one.
pub const KEYS: u8 = 40;

/// The steps are numbered from 1 to this one.
pub const STEPS: u64 = 200;

fn mix(step: u64) -> u64 {
    let once = step.wrapping_mul(0x9E37_79B9_7F4A_7C15);
    (once ^ (once >> 29)).wrapping_mul(0xBF58_476D_1CE4_E5B9) >> 33
}

pub fn key_of(step: u64) -> u8 {
    (mix(step) % 40) as u8
}

/// Three of four steps are puts, the others deletions.
pub fn is_put(step: u64) -> bool {
    mix(step) / 64 % 4 != 0
}

pub fn value_of(step: u64) -> [u8; 100] {
    [(step % 256) as u8; 100]
}

/// The newest step of a key that isn't past a number, or 0.
pub fn newest(key: u8, number: u64) -> u64 {
    let last = number.min(STEPS);
    for back in 0..last {
        if key_of(last - back) == key {
            return last - back;
        }
    }
    0
}

/// Key i of the keys from one up to another, in a direction.
pub fn ordered(direction: Direction, low: u8, behind: u8, i: u8) -> u8
    requires low { low ≤ i }
    requires behind { i < behind }
{
    match direction {
        Direction::Forward => i,
        Direction::Reverse => behind - 1 - (i - low),
    }
}

/// The steps of a key behind one and up to another.
fn add_key(
    writer: &mut RunWriter,
    host: &mut MemHost,
    key: u8,
    behind: u64,
    upto: u64,
) -> Result<(), Stop>
    requires order { behind ≤ upto }
    requires stands { Tells (disk_state host.old) → Stands writer.old (file_of (disk_state host.old) writer.old.buffer.file).bytes }
    ensures { Tells (disk_state host.new) → OnOk result (Stands writer.new (file_of (disk_state host.new) writer.new.buffer.file).bytes) }
{
    'adding: for back in 0..upto - behind {
        let step = upto - back;
        if key_of(step) == key {
            let value = value_of(step);
            let put = if is_put(step) {
                Some(value.as_slice())
            } else {
                None
            };
            writer.add(host, &[key], step, put)?;
        }
    }
    Ok(())
}

/// Writes the steps behind one and up to another, of the keys from one up to another, as a run.
pub fn write_run(
    alloc: Global,
    host: &mut MemHost,
    file: u64,
    direction: Direction,
    keys: [u8; 2],
    steps: [u64; 2],
) -> Result<RunInfo, Stop> {
    let [low, top] = keys;
    let [behind, upto] = steps;
    let mut writer = RunWriter::new(file, direction, alloc);
    if behind <= upto {
        'adding: for i in low..top {
            add_key(
                &mut writer,
                host,
                ordered(direction, low, top, i),
                behind,
                upto,
            )?;
        }
    }
    writer.finish(host)
}

/// Puts a step into memory.
fn insert_step(family: &mut Family, step: u64) -> Result<(), Memory> {
    let value = value_of(step);
    let key = [key_of(step)];
    family.reserve(1, 101)?;
    if is_put(step) {
        family.insert(&key, step, Some(&value));
    } else {
        family.insert(&key, step, None);
    }
    Ok(())
}

pub fn insert_steps(family: &mut Family, behind: u64, upto: u64) -> Result<(), Memory> {
    for step in behind..upto {
        insert_step(family, step + 1)?;
    }
    Ok(())
}
