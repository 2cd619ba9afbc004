//! The columns of an index.

ghost use Rattle.std.specs.Prelude.{◌≡◌, ◌<◌, ◌++◌, ℕ, true, false, IfOk, slice_get};
ghost use Rattle.std.specs.Option.{option_copied};
ghost use Rattle.mr_entry.specs.Entry.{columns_of, own_places, not_among, entry_places, is_reached, IsNeeded};

use mr_base::{Blob, Memory};
use mr_rowval::is_in;
use mr_types::{IndexDef, TableDef};
use sqlite_items::at;
use std::alloc::{AllocError, Global};

fn columns_of(key: Option<&IndexDef>) -> &[u8]
    ensures { result.now ≡ columns_of (option_copied key.entry) }
{
    match key {
        None => &[],
        Some(key) => key.columns.as_slice(),
    }
}

/// The columns of a secondary key.
fn own_places(def: &TableDef, index: usize) -> &[u8]
    ensures { result.now ≡ own_places def.now index }
{
    if index == 0 {
        return &[];
    }
    columns_of(at(def.secondary.as_slice(), index - 1))
}

fn with_primary(alloc: Global, own: &[u8], primary: &[u8]) -> Result<Vec<u8>, AllocError>
    ensures { IfOk result (λ out. out.items ≡ own.now ++ not_among own.now primary.now) }
{
    let mut out = Vec::from_slice(alloc, own)?;
    for place in primary {
        if !is_in(own, *place as usize) {
            out.push(*place)?;
        }
    }
    Ok(out)
}

/// The columns of an index and, behind those of a secondary key, the other ones of the primary key.
pub fn entry_places(alloc: Global, def: &TableDef, index: usize) -> Result<Vec<u8>, AllocError>
    ensures { IfOk result (λ out. out.items ≡ entry_places def.now index) }
{
    let primary = def.primary.columns.as_slice();
    if index == 0 {
        return Ok(Vec::from_slice(alloc, primary)?);
    }
    with_primary(alloc, own_places(def, index), primary)
}

/// The columns of an index's entries in the order of the key, to be computed once for a table and
/// an index: those of the index and, behind those of a secondary key, the other ones of the primary
/// key.
pub fn places_of(alloc: Global, def: &TableDef, index: usize) -> Result<Blob, Memory>
    ensures { IfOk result (λ places. places ≡ entry_places def.now index) }
{
    Ok(Blob::from_vec(entry_places(alloc, def, index)?))
}

/// Whether the column is in the key, or in the primary key.
fn is_reached(def: &TableDef, index: usize, place: usize) -> bool
    ensures { result ≡ is_reached def.now index place }
{
    is_in(own_places(def, index), place) || is_in(def.primary.columns.as_slice(), place)
}

/// Whether the entries of an index hold all needed columns, one bit per column: true for the
/// primary key, and for another key where each of these columns is in it or in the primary key.
pub fn covers(def: &TableDef, index: usize, needed: u64) -> bool
    ensures primary { index ≡ 0 → result ≡ true }
    ensures all { 0 < index → result ≡ true → (p : ℕ) → p < 64 → IsNeeded needed p → is_reached def.now index p ≡ true }
    ensures not_all { result ≡ false → (p : ℕ) × (p < 64) × IsNeeded needed p × (is_reached def.now index p ≡ false) }
{
    if index == 0 {
        return true;
    }
    for place in 0..64usize {
        if (needed >> place) % 2 == 1 && !is_reached(def, index, place) {
            return false;
        }
    }
    true
}
