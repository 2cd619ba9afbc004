//! The order of values.

ghost use Rattle.std.specs.Prelude.{◌≡◌};
ghost use Rattle.mr_pieces.specs.Order.{text_cmp as text_order, bytes_cmp as bytes_order};
ghost use Rattle.mr_types.specs.Order.{value_cmp as order_of, collation_of as collation_in};

use mr_types::{Collation, FieldRef, Kind, Value, compare};
use std::cmp::Ordering;

fn collation_of(kind: Kind) -> Collation
    ensures { result ≡ collation_in kind }
{
    match kind {
        Kind::VarChar(_, collation) => collation,
        _ => Collation::Bin,
    }
}

fn text_cmp(kind: Kind, a: &[u8], b: &[u8]) -> Ordering
    ensures { result ≡ text_order (collation_in kind) a.now b.now }
{
    let kind = Kind::VarChar(0, collation_of(kind));
    compare(FieldRef::Slice(a), FieldRef::Slice(b), kind)
}

fn bytes_cmp(a: &[u8], b: &[u8]) -> Ordering
    ensures { result ≡ bytes_order a.now b.now }
{
    compare(FieldRef::Slice(a), FieldRef::Slice(b), Kind::VarBinary(0))
}

/// The order of two values in a column of this kind.
pub(crate) fn value_cmp(kind: Kind, a: &Value, b: &Value) -> Ordering
    ensures { result ≡ order_of kind a.now b.now }
{
    match a {
        Value::Null => match b {
            Value::Null => Ordering::Equal,
            _ => Ordering::Less,
        },
        Value::Number(m) => match b {
            Value::Null => Ordering::Greater,
            Value::Number(n) => m.cmp(n),
            _ => Ordering::Less,
        },
        Value::Text(s) => match b {
            Value::Null | Value::Number(_) => Ordering::Greater,
            Value::Text(t) => text_cmp(kind, s.as_slice(), t.as_slice()),
            Value::Bytes(_) => Ordering::Less,
        },
        Value::Bytes(s) => match b {
            Value::Bytes(t) => bytes_cmp(s.as_slice(), t.as_slice()),
            _ => Ordering::Greater,
        },
    }
}
