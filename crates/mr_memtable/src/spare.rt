//! Chunks that are kept for later.
ghost use Rattle.std.specs.Prelude.{◌≡◌, ◌≤◌, ◌+◌, vec_len, vec_capacity, OnOk};
ghost use Rattle.mr_memtable.specs.Chunks.{AreSpare};

use crate::chunk::Chunk;
use mr_base::Memory;

/// Makes spare chunks until there are so many chunks in all. Takes memory; no chunk in use changes.
pub fn add_spares(
    chunks: &mut Vec<Chunk>,
    spares: &mut Vec<Chunk>,
    wanted: usize,
) -> Result<(), Memory>
    requires few { vec_len chunks.old + vec_len spares.old ≤ vec_capacity chunks.old }
    requires spare { AreSpare spares.old.items }
    ensures chunks { chunks.new.items ≡ chunks.old.items }
    ensures spare { AreSpare spares.new.items }
    ensures few { vec_len chunks.new + vec_len spares.new ≤ vec_capacity chunks.new }
    ensures more { vec_len spares.old ≤ vec_len spares.new }
    ensures enough { OnOk result (wanted ≤ vec_len chunks.new + vec_len spares.new) }
{
    chunks.try_reserve(wanted.saturating_sub(chunks.len()))?;
    let alloc = *chunks.allocator();
    'making: while chunks.len() + spares.len() < wanted {
        let spare = Chunk::new(alloc)?;
        match spares.push(spare) {
            Ok(()) => {}
            Err(_) => return Err(Memory),
        }
    }
    Ok(())
}
