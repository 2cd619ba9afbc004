//! The next hidden numbers of the tables that have drawn some: an entry a table.

ghost use Rattle.std.specs.Prelude.{◌≡◌, OnOk};
ghost use Rattle.mr_spec.specs.World.{at_name};
ghost use Rattle.mr_model_engine.specs.Worlds.{numbers_in, place_among as place_of_name};

use crate::engine::NextNumber;
use mr_base::{Blob, Memory};
use mr_model_rows::in_front;
use sqlite_items::Items;
use std::alloc::Global;
use std::mem;

/// Next hidden numbers. A table's first entry tells; a table without one begins at 1.
pub type Numbers = Items<NextNumber>;

/// The next hidden number of a table among these.
pub fn number_among(numbers: &[NextNumber], table: &[u8]) -> u64
    ensures { result ≡ numbers_in numbers.now table.now }
{
    for entry in numbers {
        if table == entry.table.as_slice() {
            return entry.number;
        }
    }
    1
}

/// The place of the table's first entry; their number where it has none.
fn place_among(numbers: &[NextNumber], table: &[u8]) -> usize
    ensures { result ≡ place_of_name table.now numbers.now }
{
    for (i, entry) in numbers.iter().enumerate() {
        if table == entry.table.as_slice() {
            return i;
        }
    }
    numbers.len()
}

/// The table's next hidden number is this one, in the entry that it has, or in a new one.
#[tactic(auto, using(crate::proofs::Entries::replaced))]
pub fn set_among(
    alloc: Global,
    numbers: &mut Numbers,
    table: &[u8],
    number: u64,
) -> Result<(), Memory>
    ensures { OnOk result (numbers_in numbers.new ≡ at_name table.now number (numbers_in numbers.old)) }
{
    let entry = NextNumber {
        table: Blob::from_slice(alloc, table)?,
        number,
    };
    let place = place_among(numbers.as_slice(), table);
    if place < numbers.len() {
        numbers.set(place, entry);
    } else {
        let others = mem::replace(numbers, Numbers::new(alloc));
        *numbers = in_front(alloc, entry, others)?;
    }
    Ok(())
}
