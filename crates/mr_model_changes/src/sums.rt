//! Sums and products of SET.

ghost use Rattle.std.specs.Prelude.{◌≡◌, ◌+ℤ◌, ◌*ℤ◌, neg_ℤ, if◌then◌else◌, map, IfOk};
ghost use Rattle.mr_types.specs.declared.statement.Factor.TheVariants.{Column};
ghost use Rattle.mr_types.specs.Refusals.{in_turn};
ghost use Rattle.mr_types.specs.Values.{Answers};
ghost use Rattle.mr_spec.specs.Setting.{ranged as in_bounds, combined, factor_in as factor_of, product_of as product_in, with_term as and_term, sum_of as sum_in};

use mr_base::Memory;
use mr_model_rows::place_of;
use mr_types::{Factor, Refused, TableDef, Term, Value};
use std::alloc::Global;

/// A result of arithmetic lies from -2^63 to 2^64 - 1, else 1690.
fn ranged(number: i128) -> Result<Value, Refused>
    ensures { Answers result (in_bounds number) }
{
    if number >= -0x8000_0000_0000_0000 && number < 0x1_0000_0000_0000_0000 {
        Ok(Value::Number(number))
    } else {
        Err(Refused::Sql(1690))
    }
}

/// The product of two operands; NULL gives NULL.
fn times(a: &Value, b: &Value) -> Result<Value, Refused>
    ensures { Answers result (combined (λ m n. m *ℤ n) a.now b.now) }
{
    match (a, b) {
        (Value::Number(m), Value::Number(n)) => match m.checked_mul(*n) {
            Some(product) => ranged(product),
            None => Err(Refused::Sql(1690)),
        },
        _ => Ok(Value::Null),
    }
}

/// Two numbers added, or the second subtracted.
fn added(minus: bool, m: i128, n: i128) -> Result<Value, Refused>
    ensures { Answers result (in_bounds (if minus then m +ℤ neg_ℤ n else m +ℤ n)) }
{
    let sum = if minus {
        m.checked_sub(n)
    } else {
        m.checked_add(n)
    };
    match sum {
        Some(sum) => ranged(sum),
        None => Err(Refused::Sql(1690)),
    }
}

/// The sum of two operands, or their difference; NULL gives NULL.
fn plus(minus: bool, a: &Value, b: &Value) -> Result<Value, Refused>
    ensures { Answers result (combined (λ m n. if minus then m +ℤ neg_ℤ n else m +ℤ n) a.now b.now) }
{
    match (a, b) {
        (Value::Number(m), Value::Number(n)) => added(minus, *m, *n),
        _ => Ok(Value::Null),
    }
}

/// A copy of the field of the column of this name, NULL where there is none.
fn field_of(alloc: Global, def: &TableDef, fields: &[Value], name: &[u8]) -> Result<Value, Memory>
    ensures { IfOk result (λ v. v ≡ factor_of def.now fields.now (Column name.now)) }
{
    let Some(place) = place_of(def, name) else {
        return Ok(Value::Null);
    };
    match fields.get(place) {
        Some(value) => value.copy(alloc),
        None => Ok(Value::Null),
    }
}

/// A column's value as assigned so far, or a literal.
fn factor_in(
    alloc: Global,
    def: &TableDef,
    fields: &[Value],
    factor: &Factor,
) -> Result<Value, Memory>
    ensures { IfOk result (λ v. v ≡ factor_of def.now fields.now factor.now) }
{
    match factor {
        Factor::Column(name) => field_of(alloc, def, fields, name.as_slice()),
        Factor::Literal(value) => value.copy(alloc),
    }
}

/// The product of a value and these factors, from left to right.
fn product_behind(
    alloc: Global,
    def: &TableDef,
    fields: &[Value],
    first: Value,
    factors: &[Factor],
) -> Result<Value, Refused>
    ensures { Answers result (in_turn (combined (λ m n. m *ℤ n)) first (map (factor_of def.now fields.now) factors.now)) }
{
    let mut product = first;
    for factor in factors {
        product = times(&product, &factor_in(alloc, def, fields, factor)?)?;
    }
    Ok(product)
}

/// The product of these factors; a single one is as it is.
fn product_of(
    alloc: Global,
    def: &TableDef,
    fields: &[Value],
    factors: &[Factor],
) -> Result<Value, Refused>
    ensures { Answers result (product_in def.now fields.now factors.now) }
{
    match factors {
        [] => Ok(Value::Null),
        [factor, rest @ ..] => {
            let first = factor_in(alloc, def, fields, factor)?;
            product_behind(alloc, def, fields, first, rest)
        }
    }
}

/// The sum so far, with one more product.
fn with_term(
    alloc: Global,
    def: &TableDef,
    fields: &[Value],
    sum: &Value,
    term: &Term,
) -> Result<Value, Refused>
    ensures { Answers result (and_term def.now fields.now sum.now term.now) }
{
    let product = product_of(alloc, def, fields, term.factors.as_slice())?;
    plus(term.minus, sum, &product)
}

/// A value and these products, from left to right.
fn sum_behind(
    alloc: Global,
    def: &TableDef,
    fields: &[Value],
    first: Value,
    terms: &[Term],
) -> Result<Value, Refused>
    ensures { Answers result (in_turn (and_term def.now fields.now) first terms.now) }
{
    let mut sum = first;
    for term in terms {
        sum = with_term(alloc, def, fields, &sum, term)?;
    }
    Ok(sum)
}

/// The sum of these products, from left to right; a single one is as it is.
pub(crate) fn sum_of(
    alloc: Global,
    def: &TableDef,
    fields: &[Value],
    terms: &[Term],
) -> Result<Value, Refused>
    ensures { Answers result (sum_in def.now fields.now terms.now) }
{
    match terms {
        [] => Ok(Value::Null),
        [term, rest @ ..] => {
            let first = product_of(alloc, def, fields, term.factors.as_slice())?;
            sum_behind(alloc, def, fields, first, rest)
        }
    }
}
