//! Entries from rows.

ghost use Rattle.std.specs.Prelude.{◌≡◌, ◌++◌, IfOk, slice_index_or};
ghost use Rattle.mr_types.specs.Rows.{IsRowOf};
ghost use Rattle.mr_memcmp.specs.Keys.{hidden_bytes};
ghost use Rattle.mr_memcmp.specs.ComeBack.{parts_unpack};
ghost use Rattle.mr_entry.specs.Entry.{entry_places, entry_key, entry_value};

use crate::places::entry_places;
use mr_base::{Blob, Memory};
use mr_memcmp::encode_key;
use mr_rowval::{encode_row, push_forms, push_stamp};
use mr_types::{Row, TableDef};
use std::alloc::{AllocError, Global};

/// The number of an index; 0 where none is given.
fn number_at(numbers: &[u32], index: usize) -> u32
    ensures { result ≡ slice_index_or numbers.now index 0 }
{
    if index < numbers.len() {
        numbers[index]
    } else {
        0
    }
}

/// The stamp and the unpack forms.
fn forms_of(alloc: Global, def: &TableDef, row: &Row, places: &[u8]) -> Result<Vec<u8>, AllocError>
    requires { IsRowOf def.now row.now }
    ensures { IfOk result (λ out. out.items ≡ hidden_bytes row.now.stamp ++ parts_unpack def.now.columns row.now.fields places.now) }
{
    let mut out = Vec::new(alloc);
    push_stamp(&mut out, row.stamp)?;
    push_forms(
        &mut out,
        def.columns.as_slice(),
        row.fields.as_slice(),
        places,
    )?;
    Ok(out)
}

fn value_of(
    alloc: Global,
    def: &TableDef,
    row: &Row,
    index: usize,
    places: &[u8],
) -> Result<Blob, Memory>
    requires row { IsRowOf def.now row.now }
    requires places { places.now ≡ entry_places def.now index }
    ensures { IfOk result (λ value. value ≡ entry_value def.now row.now index) }
{
    if index == 0 {
        return encode_row(alloc, def, row);
    }
    Ok(Blob::from_vec(forms_of(alloc, def, row, places)?))
}

/// The key and the value of a row's entry in an index: 0 is the primary key, and the secondary
/// keys follow in order. The numbers are those of the indexes in the same order.
pub fn entries_of(
    alloc: Global,
    def: &TableDef,
    numbers: &[u32],
    row: &Row,
    index: usize,
) -> Result<(Blob, Blob), Memory>
    requires { IsRowOf def.now row.now }
    ensures { IfOk result (λ entry. (entry.0 ≡ entry_key def.now numbers.now row.now index) × (entry.1 ≡ entry_value def.now row.now index)) }
{
    let places = entry_places(alloc, def, index)?;
    let key = encode_key(alloc, number_at(numbers, index), def, &places, row)?;
    let value = value_of(alloc, def, row, index, &places)?;
    Ok((key, value))
}
