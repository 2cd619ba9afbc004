//! The columns of a table, by name and by place.

ghost use Rattle.std.specs.Prelude.{◌≡◌, ◌<◌, length, IfSome};
ghost use Rattle.mr_spec.specs.Rows.{place_of as place_in_table, kind_at as kind_in};
ghost use Rattle.mr_spec.specs.Truth.{is_unknown as unknown_in};

use mr_schema::place_in;
use mr_types::{Kind, TableDef};

/// The place of a table's column, None where it has none of this name.
pub fn place_of(def: &TableDef, name: &[u8]) -> Option<usize>
    ensures is { result ≡ place_in_table def.now name.now }
    ensures within { IfSome result (λ place. place < length def.now.columns) }
{
    place_in(def.columns.as_slice(), name)
}

/// The kind of the column at a place.
pub fn kind_at(def: &TableDef, at: usize) -> Kind
    ensures { result ≡ kind_in def.now at }
{
    match def.columns.get(at) {
        Some(column) => column.ty.kind,
        None => Kind::Int,
    }
}

/// Whether the table has no column of this name.
pub fn is_unknown(def: &TableDef, name: &[u8]) -> bool
    ensures { result ≡ unknown_in def.now name.now }
{
    place_of(def, name).is_none()
}
