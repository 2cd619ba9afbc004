//! The columns of a definition.

ghost use Rattle.std.specs.Prelude.{◌≡◌, ◌≤◌, length, IfOk};
ghost use Rattle.std.specs.List.{list_any};
ghost use Rattle.mr_types.specs.Values.{Answers};
ghost use Rattle.mr_spec.specs.ColumnChecks.{kind_of as kind_written, is_primary_column as names_primary, default_kept as default_of, checked_column, checked_columns};

use crate::names::{is_among, place_in};
use mr_types::{
    ColumnDef, ColumnList, ColumnText, ColumnType, KeyText, Kind, KindText, Refused, TableText,
    Value, assign,
};
use std::alloc::Global;

/// The kind that is written, None where its length is above 65,535.
fn kind_of(kind: KindText) -> Option<Kind>
    ensures { result ≡ kind_written kind }
{
    match kind {
        KindText::Int => Some(Kind::Int),
        KindText::IntUnsigned => Some(Kind::IntUnsigned),
        KindText::BigInt => Some(Kind::BigInt),
        KindText::BigIntUnsigned => Some(Kind::BigIntUnsigned),
        KindText::VarChar(most, collation) => {
            if most > 65535 {
                return None;
            }
            Some(Kind::VarChar(most as u16, collation))
        }
        KindText::VarBinary(most) => {
            if most > 65535 {
                return None;
            }
            Some(Kind::VarBinary(most as u16))
        }
    }
}

/// Whether a primary key in the text names this column.
fn is_primary_column(keys: &[KeyText], name: &[u8]) -> bool
    ensures { result ≡ names_primary keys.now name.now }
{
    keys.iter().any(|key| key.primary && is_among(key.columns.as_slice(), name))
}

/// The default as assignment gives it, or 1067; NULL where a nullable column has none.
fn default_kept(
    alloc: Global,
    ty: &ColumnType,
    default: &Option<Value>,
) -> Result<Option<Value>, Refused>
    ensures { Answers result (default_of ty.now default.now) }
{
    match default {
        None => Ok(if ty.nullable { Some(Value::Null) } else { None }),
        Some(value) => match assign(alloc, value, ty) {
            Ok(kept) => Ok(Some(kept)),
            Err(Refused::Memory) => Err(Refused::Memory),
            Err(Refused::Sql(_)) => Err(Refused::Sql(1067)),
        },
    }
}

/// A column behind others, or the first of its refusals: 1060, 1074, 1067.
fn column_of(
    alloc: Global,
    keys: &[KeyText],
    before: &[ColumnDef],
    column: &ColumnText,
) -> Result<ColumnDef, Refused>
    ensures { Answers result (checked_column keys.now before.now column.now) }
{
    let name = column.name.as_slice();
    if place_in(before, name).is_some() {
        return Err(Refused::Sql(1060));
    }
    let Some(kind) = kind_of(column.kind) else {
        return Err(Refused::Sql(1074));
    };
    let ty = ColumnType {
        kind,
        nullable: column.nullable && !is_primary_column(keys, name),
    };
    let default = default_kept(alloc, &ty, &column.default)?;
    Ok(ColumnDef {
        name: column.name.copy(alloc)?,
        ty,
        default,
    })
}

/// The columns in the order of the text, or their first refusal; 1117 where they are more than 64.
pub(crate) fn columns_of(alloc: Global, text: &TableText) -> Result<ColumnList, Refused>
    ensures answers { Answers result (checked_columns text.now) }
    ensures few { IfOk result (λ columns. length columns ≤ 64) }
{
    let written = text.columns.as_slice();
    if written.len() > 64 {
        return Err(Refused::Sql(1117));
    }
    let mut columns = ColumnList::new(alloc);
    for column in written {
        let checked = column_of(alloc, text.keys.as_slice(), columns.as_slice(), column)?;
        columns.push(checked)?;
    }
    Ok(columns)
}
