//! The row that a source stands on beside a row that is held.

ghost use Rattle.std.specs.Prelude.{◌≡◌, if◌then◌else◌, IsSome, IfSome};
ghost use Rattle.std.specs.Ordering.{ordering_then, nat_cmp};
ghost use Rattle.mr_types.specs.declared.value.Value.TheVariants.{Text as AText, Bytes as SomeBytes};
ghost use Rattle.mr_types.specs.Order.{value_cmp as order_of};
ghost use Rattle.mr_types.specs.Values.{is_null as null_test};
ghost use Rattle.mr_types.specs.FieldValues.{field_value};
ghost use Rattle.mr_spec.specs.Rows.{kind_at as kind_in, value_at as value_in, columns_cmp as columns_order, primary_cmp as primary_order};
ghost use Rattle.mr_bound.specs.BoundSelects.{order_by as items_order, reply_by as reply_order};

use crate::orders::turned;
use crate::source::RowSource;
use mr_bound::BoundOrder;
use mr_expr::Fields;
use mr_types::{FieldRef, Kind, Row, TableDef, Value, compare_fields};
use std::cmp::Ordering;

/// Against a text; bytes come behind it.
fn order_to_text(kind: Kind, field: &FieldRef<'_>, text: &[u8]) -> Ordering
    ensures { result ≡ order_of kind (field_value kind field.now) (AText text.now) }
{
    match kind {
        Kind::VarChar(_, _) => compare_fields(field, &FieldRef::Slice(text), kind),
        _ => match field {
            FieldRef::Null | FieldRef::Number(_) => Ordering::Less,
            FieldRef::Slice(_) | FieldRef::Pieces(_) => Ordering::Greater,
        },
    }
}

/// Against bytes; a text comes before them.
fn order_to_bytes(kind: Kind, field: &FieldRef<'_>, bytes: &[u8]) -> Ordering
    ensures { result ≡ order_of kind (field_value kind field.now) (SomeBytes bytes.now) }
{
    match kind {
        Kind::VarChar(_, _) => Ordering::Less,
        _ => compare_fields(field, &FieldRef::Slice(bytes), kind),
    }
}

/// A field against a value that is held.
fn order_to(kind: Kind, field: &FieldRef<'_>, value: &Value) -> Ordering
    ensures { result ≡ order_of kind (field_value kind field.now) value.now }
{
    match value {
        Value::Null => compare_fields(field, &FieldRef::Null, kind),
        Value::Number(number) => compare_fields(field, &FieldRef::Number(*number), kind),
        Value::Text(text) => order_to_text(kind, field, text.as_slice()),
        Value::Bytes(bytes) => order_to_bytes(kind, field, bytes.as_slice()),
    }
}

/// A field against a row's value at a place.
fn order_to_row(kind: Kind, field: &FieldRef<'_>, column: u8, row: &Row) -> Ordering
    ensures { result ≡ order_of kind (field_value kind field.now) (value_in row.now column) }
{
    match row.fields.get(column as usize) {
        Some(value) => order_to(kind, field, value),
        None => order_to(kind, field, &Value::Null),
    }
}

/// By the values at a place.
fn value_order<F: Fields>(fields: &F, column: u8, row: &Row) -> Ordering
    requires { IsSome (F.current fields.now) }
    ensures { IfSome (F.current fields.now) (λ r. result ≡ order_of (kind_in (F.def fields.now) column) (value_in r column) (value_in row.now column)) }
{
    order_to_row(fields.kind(column), &fields.field(column), column, row)
}

/// By the values in these columns, one after the other.
fn columns_cmp<F: Fields>(fields: &F, places: &[u8], row: &Row) -> Ordering
    requires { IsSome (F.current fields.now) }
    ensures { IfSome (F.current fields.now) (λ r. result ≡ columns_order (F.def fields.now) places.now r row.now) }
{
    for place in places {
        let order = value_order::<F>(fields, *place, row);
        if order != Ordering::Equal {
            return order;
        }
    }
    Ordering::Equal
}

/// By the columns of ORDER BY, one after the other.
fn order_by<F: Fields>(fields: &F, order: &[BoundOrder], row: &Row) -> Ordering
    requires { IsSome (F.current fields.now) }
    ensures { IfSome (F.current fields.now) (λ r. result ≡ items_order (F.def fields.now) order.now r row.now) }
{
    for item in order {
        let found = turned(item.descending, value_order::<F>(fields, item.column, row));
        if found != Ordering::Equal {
            return found;
        }
    }
    Ordering::Equal
}

/// By the primary key, which is the hidden number where it has no columns.
fn primary_cmp<S: RowSource>(source: &S, def: &TableDef, row: &Row) -> Ordering
    requires some { IsSome (S.current source.now) }
    requires of { def.now ≡ S.def source.now }
    ensures { IfSome (S.current source.now) (λ r. result ≡ primary_order def.now r row.now) }
{
    let found = columns_cmp::<S>(source, def.primary.columns.as_slice(), row);
    if found != Ordering::Equal {
        return found;
    }
    source.hidden().unwrap_or(0).cmp(&row.hidden.unwrap_or(0))
}

/// By ORDER BY, and by the primary key or the hidden number where that ties.
pub(crate) fn reply_by<S: RowSource>(
    source: &S,
    def: &TableDef,
    order: &[BoundOrder],
    row: &Row,
) -> Ordering
    requires some { IsSome (S.current source.now) }
    requires of { def.now ≡ S.def source.now }
    ensures { IfSome (S.current source.now) (λ r. result ≡ reply_order def.now order.now r row.now) }
{
    let found = order_by::<S>(source, order, row);
    if found != Ordering::Equal {
        return found;
    }
    primary_cmp::<S>(source, def, row)
}

/// Whether the value at a place is NULL.
pub(crate) fn is_null_at<F: Fields>(fields: &F, column: u8) -> bool
    requires { IsSome (F.current fields.now) }
    ensures { IfSome (F.current fields.now) (λ r. result ≡ null_test (value_in r column)) }
{
    is_null(&fields.field(column))
}

fn is_null(field: &FieldRef<'_>) -> bool
    ensures { (kind : Kind) → result ≡ null_test (field_value kind field.now) }
{
    match field {
        FieldRef::Null => true,
        FieldRef::Number(_) | FieldRef::Slice(_) | FieldRef::Pieces(_) => false,
    }
}
