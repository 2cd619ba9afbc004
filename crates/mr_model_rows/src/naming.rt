//! The columns and literals that a condition names.

ghost use Rattle.std.specs.Prelude.{◌≡◌, ◌∷◌, [], is_err, Some, IfOk};
ghost use Rattle.std.specs.List.{list_any};
ghost use Rattle.mr_types.specs.Values.{Answers, convert_to};
ghost use Rattle.mr_spec.specs.Truth.{where_of, is_unknown as unknown_in, has_wrong_literal as has_wrong, known_columns as known, right_literals as right};
ghost use Rattle.mr_model_rows.specs.Naming.{some_named};

use crate::conditions::is_unknown;
use crate::rows::{kind_at, place_of};
use mr_base::Memory;
use mr_types::{Expr, Kind, Refused, TableDef, Value, convert};
use std::alloc::Global;
use std::slice;

/// Whether the condition names a column that isn't there.
fn names_unknown(def: &TableDef, expr: &Expr) -> bool
    ensures { result ≡ some_named (λ n. unknown_in def.now n.column) expr.now }
{
    match expr {
        Expr::Compare(name, _, _) => is_unknown(def, name.as_slice()),
        Expr::IsNull(name) => is_unknown(def, name.as_slice()),
        Expr::Between(name, _, _) => is_unknown(def, name.as_slice()),
        Expr::OneOf(name, _) => is_unknown(def, name.as_slice()),
        Expr::Not(part) => names_unknown(def, part.get()),
        Expr::And(parts) => {
            for part in parts.as_slice() {
                if names_unknown(def, part) {
                    return true;
                }
            }
            false
        }
        Expr::Or(parts) => {
            for choice in parts.as_slice() {
                if names_unknown(def, choice) {
                    return true;
                }
            }
            false
        }
    }
}

/// 1054 where the condition names a column that isn't there.
pub fn known_columns(def: &TableDef, condition: &Option<Expr>) -> Result<(), Refused>
    ensures { Answers result (known def.now (where_of condition.now)) }
{
    match condition {
        None => Ok(()),
        Some(expr) => {
            if names_unknown(def, expr) {
                return Err(Refused::Sql(1054));
            }
            Ok(())
        }
    }
}

/// Whether the literal has no value of the kind.
fn is_wrong(alloc: Global, kind: Kind, literal: &Value) -> Result<bool, Memory>
    ensures { IfOk result (λ wrong. wrong ≡ is_err (convert_to kind literal.now)) }
{
    match convert(alloc, literal, kind) {
        Ok(_) => Ok(false),
        Err(Refused::Memory) => Err(Memory),
        Err(Refused::Sql(_)) => Ok(true),
    }
}

/// Whether one of the literals has no value of the column's kind; a column that isn't there has no
/// kind.
fn has_wrong_literal(
    alloc: Global,
    def: &TableDef,
    name: &[u8],
    literals: &[Value],
) -> Result<bool, Memory>
    ensures { IfOk result (λ wrong. wrong ≡ has_wrong def.now (record { column = name.now; literals = literals.now })) }
{
    let Some(at) = place_of(def, name) else {
        return Ok(false);
    };
    let kind = kind_at(def, at);
    for literal in literals {
        if is_wrong(alloc, kind, literal)? {
            return Ok(true);
        }
    }
    Ok(false)
}

/// Whether one end of BETWEEN has no value of the column's kind.
fn has_wrong_end(
    alloc: Global,
    def: &TableDef,
    name: &[u8],
    low: &Value,
    high: &Value,
) -> Result<bool, Memory>
    ensures { IfOk result (λ wrong. wrong ≡ has_wrong def.now (record { column = name.now; literals = low.now ∷ high.now ∷ [] })) }
{
    let Some(at) = place_of(def, name) else {
        return Ok(false);
    };
    let kind = kind_at(def, at);
    Ok(is_wrong(alloc, kind, low)? || is_wrong(alloc, kind, high)?)
}

/// Whether the condition has a literal without a value of its column's kind.
fn names_wrong(alloc: Global, def: &TableDef, expr: &Expr) -> Result<bool, Memory>
    ensures { IfOk result (λ wrong. wrong ≡ some_named (has_wrong def.now) expr.now) }
{
    match expr {
        Expr::Compare(name, _, literal) => {
            has_wrong_literal(alloc, def, name.as_slice(), slice::from_ref(literal))
        }
        Expr::IsNull(_) => Ok(false),
        Expr::Between(name, low, high) => has_wrong_end(alloc, def, name.as_slice(), low, high),
        Expr::OneOf(name, literals) => {
            has_wrong_literal(alloc, def, name.as_slice(), literals.as_slice())
        }
        Expr::Not(part) => names_wrong(alloc, def, part.get()),
        Expr::And(parts) => {
            for part in parts.as_slice() {
                if names_wrong(alloc, def, part)? {
                    return Ok(true);
                }
            }
            Ok(false)
        }
        Expr::Or(parts) => {
            for choice in parts.as_slice() {
                if names_wrong(alloc, def, choice)? {
                    return Ok(true);
                }
            }
            Ok(false)
        }
    }
}

/// 1366 where the condition has a literal without a value of its column's kind.
pub fn right_literals(
    alloc: Global,
    def: &TableDef,
    condition: &Option<Expr>,
) -> Result<(), Refused>
    ensures { Answers result (right def.now (where_of condition.now)) }
{
    match condition {
        None => Ok(()),
        Some(expr) => {
            if names_wrong(alloc, def, expr)? {
                return Err(Refused::Sql(1366));
            }
            Ok(())
        }
    }
}
