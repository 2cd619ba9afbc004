//! Sums and products of SET.

ghost use Rattle.std.specs.Prelude.{◌≡◌, ◌+ℤ◌, ◌*ℤ◌, neg_ℤ, if◌then◌else◌, map, IfOk};
ghost use Rattle.mr_types.specs.Refusals.{in_turn};
ghost use Rattle.mr_bound.specs.declared.bound.BoundFactor.TheVariants.{Column};
ghost use Rattle.mr_types.specs.Values.{Answers};
ghost use Rattle.mr_spec.specs.Setting.{ranged as in_bounds, combined};
ghost use Rattle.mr_bound.specs.BoundUpdates.{factor_in as factor_of, product_of as product_in, with_term as and_term, sum_of as sum_in};

use crate::bound::{BoundFactor, BoundTerm};
use mr_base::Memory;
use mr_types::{Refused, Value};
use std::alloc::Global;

/// A result of arithmetic lies from -2^63 to 2^64 - 1, else 1690.
fn ranged(number: i128) -> Result<Value, Refused>
    ensures { Answers result (in_bounds number) }
{
    if number >= -0x8000_0000_0000_0000 && number < 0x1_0000_0000_0000_0000 {
        Ok(Value::Number(number))
    } else {
        Err(Refused::Sql(1690))
    }
}

/// The product of two operands; NULL gives NULL.
fn times(a: &Value, b: &Value) -> Result<Value, Refused>
    ensures { Answers result (combined (λ m n. m *ℤ n) a.now b.now) }
{
    match (a, b) {
        (Value::Number(m), Value::Number(n)) => match m.checked_mul(*n) {
            Some(product) => ranged(product),
            None => Err(Refused::Sql(1690)),
        },
        _ => Ok(Value::Null),
    }
}

/// Two numbers added, or the second subtracted.
fn added(minus: bool, m: i128, n: i128) -> Result<Value, Refused>
    ensures { Answers result (in_bounds (if minus then m +ℤ neg_ℤ n else m +ℤ n)) }
{
    let sum = if minus {
        m.checked_sub(n)
    } else {
        m.checked_add(n)
    };
    match sum {
        Some(sum) => ranged(sum),
        None => Err(Refused::Sql(1690)),
    }
}

/// The sum of two operands, or their difference; NULL gives NULL.
fn plus(minus: bool, a: &Value, b: &Value) -> Result<Value, Refused>
    ensures { Answers result (combined (λ m n. if minus then m +ℤ neg_ℤ n else m +ℤ n) a.now b.now) }
{
    match (a, b) {
        (Value::Number(m), Value::Number(n)) => added(minus, *m, *n),
        _ => Ok(Value::Null),
    }
}

/// A copy of the field at a place, NULL where there is none.
fn field_at(alloc: Global, fields: &[Value], place: u8) -> Result<Value, Memory>
    ensures { IfOk result (λ v. v ≡ factor_of fields.now (Column place)) }
{
    match fields.get(place as usize) {
        Some(value) => value.copy(alloc),
        None => Ok(Value::Null),
    }
}

/// A column's value as assigned so far, or a literal.
fn factor_in(alloc: Global, fields: &[Value], factor: &BoundFactor) -> Result<Value, Memory>
    ensures { IfOk result (λ v. v ≡ factor_of fields.now factor.now) }
{
    match factor {
        BoundFactor::Column(place) => field_at(alloc, fields, *place),
        BoundFactor::Literal(value) => value.copy(alloc),
    }
}

/// The product of a value and these factors, from left to right.
fn product_behind(
    alloc: Global,
    fields: &[Value],
    first: Value,
    factors: &[BoundFactor],
) -> Result<Value, Refused>
    ensures { Answers result (in_turn (combined (λ m n. m *ℤ n)) first (map (factor_of fields.now) factors.now)) }
{
    let mut product = first;
    for factor in factors {
        product = times(&product, &factor_in(alloc, fields, factor)?)?;
    }
    Ok(product)
}

/// The product of these factors; a single one is as it is.
fn product_of(alloc: Global, fields: &[Value], factors: &[BoundFactor]) -> Result<Value, Refused>
    ensures { Answers result (product_in fields.now factors.now) }
{
    match factors {
        [] => Ok(Value::Null),
        [factor, rest @ ..] => {
            let first = factor_in(alloc, fields, factor)?;
            product_behind(alloc, fields, first, rest)
        }
    }
}

/// The sum so far, with one more product.
fn with_term(
    alloc: Global,
    fields: &[Value],
    sum: &Value,
    term: &BoundTerm,
) -> Result<Value, Refused>
    ensures { Answers result (and_term fields.now sum.now term.now) }
{
    let product = product_of(alloc, fields, term.factors.as_slice())?;
    plus(term.minus, sum, &product)
}

/// A value and these products, from left to right.
fn sum_behind(
    alloc: Global,
    fields: &[Value],
    first: Value,
    terms: &[BoundTerm],
) -> Result<Value, Refused>
    ensures { Answers result (in_turn (and_term fields.now) first terms.now) }
{
    let mut sum = first;
    for term in terms {
        sum = with_term(alloc, fields, &sum, term)?;
    }
    Ok(sum)
}

/// The sum of these products; a single one is as it is.
pub(crate) fn sum_of(alloc: Global, fields: &[Value], terms: &[BoundTerm]) -> Result<Value, Refused>
    ensures { Answers result (sum_in fields.now terms.now) }
{
    match terms {
        [] => Ok(Value::Null),
        [term, rest @ ..] => {
            let first = product_of(alloc, fields, term.factors.as_slice())?;
            sum_behind(alloc, fields, first, rest)
        }
    }
}
