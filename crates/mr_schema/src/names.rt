//! Names, and the columns that they name.

ghost use Rattle.std.specs.Prelude.{◌≡◌, ◌<◌, length, IfSome};
ghost use Rattle.std.specs.List.{list_any};
ghost use Rattle.mr_types.specs.Values.{same_name};
ghost use Rattle.mr_spec.specs.Rows.{place_from};

use mr_base::Blob;
use mr_lanes::upper_of;
use mr_types::ColumnDef;

/// Whether the two are the same without regard to case.
pub fn is_same_name(a: &[u8], b: &[u8]) -> bool
    ensures { result ≡ same_name a.now b.now }
{
    if a.len() != b.len() {
        return false;
    }
    for (i, byte) in a.iter().enumerate() {
        if upper_of(*byte) != upper_of(b[i]) {
            return false;
        }
    }
    true
}

/// Whether the name is one of these.
pub(crate) fn is_among(names: &[Blob], name: &[u8]) -> bool
    ensures { result ≡ list_any (same_name name.now) names.now }
{
    names
        .iter()
        .any(|other| is_same_name(name, other.as_slice()))
}

/// The place of the column of this name, None where there is none.
pub fn place_in(columns: &[ColumnDef], name: &[u8]) -> Option<usize>
    ensures is { result ≡ place_from 0 name.now columns.now }
    ensures within { IfSome result (λ place. place < length columns.now) }
{
    for (i, column) in columns.iter().enumerate() {
        if is_same_name(column.name.as_slice(), name) {
            return Some(i);
        }
    }
    None
}
