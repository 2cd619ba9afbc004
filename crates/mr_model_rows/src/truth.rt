//! The truth of a condition on a row.

ghost use Rattle.std.specs.Prelude.{◌≡◌, IfOk, unwrap_or};
ghost use Rattle.std.specs.Option.{option_copied};
ghost use Rattle.mr_types.specs.declared.value.Value.TheVariants.{Null};
ghost use Rattle.mr_types.specs.Values.{convert_to, is_null as null_test};
ghost use Rattle.mr_spec.specs.Truth.{truth_of_test as of_test, not_of as turned, and_of as both, or_of as one_or_other, meets as met, compared as compares, field_of as field_in, literal_as as literal_for, test_of as tested, one_of as among, truth_of as truth_in};

use crate::rows::{kind_at, place_of};
use crate::values::value_cmp;
use mr_base::Memory;
use mr_spec::Truth;
use mr_types::{Cmp, Expr, Kind, Refused, Row, TableDef, Value, convert};
use std::alloc::Global;
use std::cmp::Ordering;

fn truth_of_test(holds: bool) -> Truth
    ensures { result ≡ of_test holds }
{
    if holds { Truth::True } else { Truth::False }
}

fn not_of(truth: Truth) -> Truth
    ensures { result ≡ turned truth }
{
    match truth {
        Truth::True => Truth::False,
        Truth::False => Truth::True,
        Truth::Unknown => Truth::Unknown,
    }
}

fn and_of(a: Truth, b: Truth) -> Truth
    ensures { result ≡ both a b }
{
    match (a, b) {
        (Truth::False, _) | (_, Truth::False) => Truth::False,
        (Truth::True, Truth::True) => Truth::True,
        _ => Truth::Unknown,
    }
}

fn or_of(a: Truth, b: Truth) -> Truth
    ensures { result ≡ one_or_other a b }
{
    match (a, b) {
        (Truth::True, _) | (_, Truth::True) => Truth::True,
        (Truth::False, Truth::False) => Truth::False,
        _ => Truth::Unknown,
    }
}

fn meets(cmp: Cmp, order: Ordering) -> bool
    ensures { result ≡ met cmp order }
{
    match cmp {
        Cmp::Eq => order.is_eq(),
        Cmp::Ne => order.is_ne(),
        Cmp::Lt => order.is_lt(),
        Cmp::Le => order.is_le(),
        Cmp::Gt => order.is_gt(),
        Cmp::Ge => order.is_ge(),
    }
}

fn is_null(value: &Value) -> bool
    ensures { result ≡ null_test value.now }
{
    match value {
        Value::Null => true,
        _ => false,
    }
}

/// A value against a literal of its kind; unknown where one of them is NULL.
fn compared(kind: Kind, value: &Value, cmp: Cmp, literal: &Value) -> Truth
    ensures { result ≡ compares kind value.now cmp literal.now }
{
    if is_null(value) || is_null(literal) {
        return Truth::Unknown;
    }
    truth_of_test(meets(cmp, value_cmp(kind, value, literal)))
}

/// A literal in a column's kind, NULL where it has none.
fn literal_as(alloc: Global, kind: Kind, literal: &Value) -> Result<Value, Memory>
    ensures { IfOk result (λ v. v ≡ literal_for kind literal.now) }
{
    match convert(alloc, literal, kind) {
        Ok(value) => Ok(value),
        Err(Refused::Memory) => Err(Memory),
        Err(Refused::Sql(_)) => Ok(Value::Null),
    }
}

/// The value of the column of this name in a row, and its kind. A name that is no column never
/// comes here: it stands for the first column.
fn field_of<'a>(def: &TableDef, row: &'a Row, name: &[u8]) -> (Kind, Option<&'a Value>)
    ensures kind { result.0 ≡ (field_in def.now row.now name.now).kind }
    ensures value { unwrap_or (option_copied result.1) Null ≡ (field_in def.now row.now name.now).value }
{
    let at = place_of(def, name).unwrap_or(0);
    (kind_at(def, at), row.fields.get(at))
}

/// A column against a literal.
fn test_of(
    alloc: Global,
    def: &TableDef,
    row: &Row,
    name: &[u8],
    cmp: Cmp,
    literal: &Value,
) -> Result<Truth, Memory>
    ensures { IfOk result (λ t. t ≡ tested (field_in def.now row.now name.now) cmp literal.now) }
{
    let (kind, value) = field_of(def, row, name);
    let literal = literal_as(alloc, kind, literal)?;
    Ok(match value {
        Some(value) => compared(kind, value, cmp, &literal),
        None => Truth::Unknown,
    })
}

/// IN.
fn one_of(
    alloc: Global,
    def: &TableDef,
    row: &Row,
    name: &[u8],
    literals: &[Value],
) -> Result<Truth, Memory>
    ensures { IfOk result (λ t. t ≡ among (field_in def.now row.now name.now) literals.now) }
{
    let mut truth = Truth::False;
    for literal in literals {
        truth = or_of(truth, test_of(alloc, def, row, name, Cmp::Eq, literal)?);
    }
    Ok(truth)
}

fn is_null_in(def: &TableDef, row: &Row, name: &[u8]) -> Truth
    ensures { result ≡ of_test (null_test (field_in def.now row.now name.now).value) }
{
    let (_, value) = field_of(def, row, name);
    truth_of_test(match value {
        Some(value) => is_null(value),
        None => true,
    })
}

/// The truth of a condition on a row.
pub fn truth_of(alloc: Global, def: &TableDef, row: &Row, expr: &Expr) -> Result<Truth, Memory>
    ensures { IfOk result (λ t. t ≡ truth_in def.now row.now expr.now) }
{
    match expr {
        Expr::Compare(name, cmp, literal) => {
            test_of(alloc, def, row, name.as_slice(), *cmp, literal)
        }
        Expr::IsNull(name) => Ok(is_null_in(def, row, name.as_slice())),
        Expr::Between(name, low, high) => {
            let low = test_of(alloc, def, row, name.as_slice(), Cmp::Ge, low)?;
            let high = test_of(alloc, def, row, name.as_slice(), Cmp::Le, high)?;
            Ok(and_of(low, high))
        }
        Expr::OneOf(name, literals) => {
            one_of(alloc, def, row, name.as_slice(), literals.as_slice())
        }
        Expr::Not(part) => Ok(not_of(truth_of(alloc, def, row, part.get())?)),
        Expr::And(parts) => {
            let mut all = Truth::True;
            for part in parts.as_slice() {
                all = and_of(all, truth_of(alloc, def, row, part)?);
            }
            Ok(all)
        }
        Expr::Or(parts) => {
            let mut some = Truth::False;
            for choice in parts.as_slice() {
                some = or_of(some, truth_of(alloc, def, row, choice)?);
            }
            Ok(some)
        }
    }
}
