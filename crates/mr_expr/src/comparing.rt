//! A field against literals, and truths put together.

ghost use Rattle.std.specs.Prelude.{◌≡◌};
ghost use Rattle.mr_types.specs.declared.value.Value.TheVariants.{Text as AText, Bytes as SomeBytes};
ghost use Rattle.mr_types.specs.declared.kind.Kind.{Kind};
ghost use Rattle.mr_types.specs.Values.{is_null as null_test};
ghost use Rattle.mr_types.specs.Order.{value_cmp as order_of};
ghost use Rattle.mr_types.specs.FieldValues.{field_value};
ghost use Rattle.mr_spec.specs.Truth.{truth_of_test as of_test, not_of as turned, and_of as both, or_of as one_or_other, meets as met, compared as compares};
ghost use Rattle.mr_expr.specs.Among.{one_among};

use mr_spec::Truth;
use mr_types::{Cmp, FieldRef, Kind, Value, compare_fields};
use std::cmp::Ordering;

pub(crate) fn truth_of_test(holds: bool) -> Truth
    ensures { result ≡ of_test holds }
{
    if holds { Truth::True } else { Truth::False }
}

/// NOT: unknown stays.
pub(crate) fn not_of(truth: Truth) -> Truth
    ensures { result ≡ turned truth }
{
    match truth {
        Truth::True => Truth::False,
        Truth::False => Truth::True,
        Truth::Unknown => Truth::Unknown,
    }
}

/// AND: false where a part is false, else unknown where a part is.
pub(crate) fn and_of(a: Truth, b: Truth) -> Truth
    ensures { result ≡ both a b }
{
    match (a, b) {
        (Truth::False, _) | (_, Truth::False) => Truth::False,
        (Truth::True, Truth::True) => Truth::True,
        _ => Truth::Unknown,
    }
}

/// OR: true where a part is true, else unknown where a part is.
pub(crate) fn or_of(a: Truth, b: Truth) -> Truth
    ensures { result ≡ one_or_other a b }
{
    match (a, b) {
        (Truth::True, _) | (_, Truth::True) => Truth::True,
        (Truth::False, Truth::False) => Truth::False,
        _ => Truth::Unknown,
    }
}

fn meets(cmp: Cmp, order: Ordering) -> bool
    ensures { result ≡ met cmp order }
{
    match cmp {
        Cmp::Eq => order.is_eq(),
        Cmp::Ne => order.is_ne(),
        Cmp::Lt => order.is_lt(),
        Cmp::Le => order.is_le(),
        Cmp::Gt => order.is_gt(),
        Cmp::Ge => order.is_ge(),
    }
}

pub(crate) fn is_null(field: &FieldRef<'_>) -> bool
    ensures { (kind : Kind) → result ≡ null_test (field_value kind field.now) }
{
    match field {
        FieldRef::Null => true,
        FieldRef::Number(_) | FieldRef::Slice(_) | FieldRef::Pieces(_) => false,
    }
}

fn is_null_value(value: &Value) -> bool
    ensures { result ≡ null_test value.now }
{
    match value {
        Value::Null => true,
        Value::Number(_) | Value::Text(_) | Value::Bytes(_) => false,
    }
}

/// Against a text; bytes come behind it.
fn order_to_text(kind: Kind, field: &FieldRef<'_>, text: &[u8]) -> Ordering
    ensures { result ≡ order_of kind (field_value kind field.now) (AText text.now) }
{
    match kind {
        Kind::VarChar(_, _) => compare_fields(field, &FieldRef::Slice(text), kind),
        _ => match field {
            FieldRef::Null | FieldRef::Number(_) => Ordering::Less,
            FieldRef::Slice(_) | FieldRef::Pieces(_) => Ordering::Greater,
        },
    }
}

/// Against bytes; a text comes before them.
fn order_to_bytes(kind: Kind, field: &FieldRef<'_>, bytes: &[u8]) -> Ordering
    ensures { result ≡ order_of kind (field_value kind field.now) (SomeBytes bytes.now) }
{
    match kind {
        Kind::VarChar(_, _) => Ordering::Less,
        _ => compare_fields(field, &FieldRef::Slice(bytes), kind),
    }
}

fn order_to(kind: Kind, field: &FieldRef<'_>, literal: &Value) -> Ordering
    ensures { result ≡ order_of kind (field_value kind field.now) literal.now }
{
    match literal {
        Value::Null => compare_fields(field, &FieldRef::Null, kind),
        Value::Number(number) => compare_fields(field, &FieldRef::Number(*number), kind),
        Value::Text(text) => order_to_text(kind, field, text.as_slice()),
        Value::Bytes(bytes) => order_to_bytes(kind, field, bytes.as_slice()),
    }
}

/// A field against a literal of its kind; unknown where one of them is NULL.
pub(crate) fn compared(kind: Kind, field: &FieldRef<'_>, cmp: Cmp, literal: &Value) -> Truth
    ensures { result ≡ compares kind (field_value kind field.now) cmp literal.now }
{
    if is_null(field) || is_null_value(literal) {
        return Truth::Unknown;
    }
    truth_of_test(meets(cmp, order_to(kind, field, literal)))
}

/// IN: true where a literal is the same, else unknown where one or the field is NULL.
pub(crate) fn among(kind: Kind, field: &FieldRef<'_>, literals: &[Value]) -> Truth
    ensures { result ≡ one_among kind (field_value kind field.now) literals.now }
{
    let mut truth = Truth::False;
    for literal in literals {
        truth = or_of(truth, compared(kind, field, Cmp::Eq, literal));
    }
    truth
}
