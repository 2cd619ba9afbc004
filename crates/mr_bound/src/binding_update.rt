//! SET and WHERE of an UPDATE, bound to a table.

ghost use Rattle.std.specs.Prelude.{◌≡◌, ◌≤◌, ◌∷◌, [], false, length, map, IfOk};
ghost use Rattle.mr_types.specs.Values.{Answers};
ghost use Rattle.mr_bound.specs.declared.bound.BoundFactor.TheVariants.{Literal};
ghost use Rattle.mr_bound.specs.BoundUpdates.{factor_at as factor_in, term_at as term_in, default_of as default_in, sum_at as sum_in, set_at as set_in, bind_update as bind_in};

use crate::binding_select::place_or_first;
use crate::bound::{
    BoundFactor, BoundFactorList, BoundSet, BoundSetList, BoundTerm, BoundTermList, BoundUpdate,
};
use crate::condition::{converted_condition, known_condition};
use crate::set_checks::{has_missing_default, has_unknown_column, has_wrong_sum};
use mr_base::Memory;
use mr_types::{Expr, Factor, Refused, SetItem, SetList, SetTo, TableDef, Term, Value};
use std::alloc::Global;

fn factor_at(alloc: Global, def: &TableDef, factor: &Factor) -> Result<BoundFactor, Memory>
    requires few { length def.now.columns ≤ 255 }
    ensures { IfOk result (λ bound. bound ≡ factor_in def.now factor.now) }
{
    match factor {
        Factor::Column(name) => Ok(BoundFactor::Column(place_or_first(def, name.as_slice()))),
        Factor::Literal(value) => Ok(BoundFactor::Literal(value.copy(alloc)?)),
    }
}

fn factors_at(alloc: Global, def: &TableDef, factors: &[Factor]) -> Result<BoundFactorList, Memory>
    requires few { length def.now.columns ≤ 255 }
    ensures { IfOk result (λ bound. bound ≡ map (factor_in def.now) factors.now) }
{
    let mut bound = BoundFactorList::new(alloc);
    for factor in factors {
        bound.push(factor_at(alloc, def, factor)?)?;
    }
    Ok(bound)
}

fn terms_at(alloc: Global, def: &TableDef, terms: &[Term]) -> Result<BoundTermList, Memory>
    requires few { length def.now.columns ≤ 255 }
    ensures { IfOk result (λ bound. bound ≡ map (term_in def.now) terms.now) }
{
    let mut bound = BoundTermList::new(alloc);
    for term in terms {
        bound.push(BoundTerm {
            minus: term.minus,
            factors: factors_at(alloc, def, term.factors.as_slice())?,
        })?;
    }
    Ok(bound)
}

/// A copy of the default of the column of this name, NULL where it has none.
fn default_of(alloc: Global, def: &TableDef, name: &[u8]) -> Result<Value, Memory>
    requires few { length def.now.columns ≤ 255 }
    ensures { IfOk result (λ value. value ≡ default_in def.now name.now) }
{
    match def.columns.get(place_or_first(def, name) as usize) {
        None => Ok(Value::Null),
        Some(column) => match &column.default {
            None => Ok(Value::Null),
            Some(value) => value.copy(alloc),
        },
    }
}

/// DEFAULT, as a sum.
fn default_sum(alloc: Global, value: Value) -> Result<BoundTermList, Memory>
    ensures { IfOk result (λ sum. sum ≡ record { minus = false; factors = Literal value ∷ [] } ∷ []) }
{
    let mut factors = BoundFactorList::new(alloc);
    factors.push(BoundFactor::Literal(value))?;
    let mut terms = BoundTermList::new(alloc);
    terms.push(BoundTerm {
        minus: false,
        factors,
    })?;
    Ok(terms)
}

fn sum_at(alloc: Global, def: &TableDef, name: &[u8], to: &SetTo) -> Result<BoundTermList, Memory>
    requires few { length def.now.columns ≤ 255 }
    ensures { IfOk result (λ sum. sum ≡ sum_in def.now name.now to.now) }
{
    match to {
        SetTo::Default => default_sum(alloc, default_of(alloc, def, name)?),
        SetTo::Sum(terms) => terms_at(alloc, def, terms.as_slice()),
    }
}

fn set_at(alloc: Global, def: &TableDef, set: &[SetItem]) -> Result<BoundSetList, Memory>
    requires few { length def.now.columns ≤ 255 }
    ensures { IfOk result (λ bound. bound ≡ map (set_in def.now) set.now) }
{
    let mut bound = BoundSetList::new(alloc);
    for item in set {
        bound.push(BoundSet {
            column: place_or_first(def, item.column.as_slice()),
            to: sum_at(alloc, def, item.column.as_slice(), &item.to)?,
        })?;
    }
    Ok(bound)
}

/// The assignments and the condition with places in the place of names: 1054 exactly where SET or
/// WHERE names a column that isn't in the table, else 1366 exactly where SET does arithmetic on texts
/// or bytes or a literal in WHERE isn't converted, else 1364 exactly where a column without a default
/// is set to DEFAULT.
pub fn bind_update(
    alloc: Global,
    def: &TableDef,
    set: &SetList,
    condition: &Option<Expr>,
) -> Result<BoundUpdate, Refused>
    requires few { length def.now.columns ≤ 255 }
    ensures { Answers result (bind_in def.now set.now condition.now) }
{
    if has_unknown_column(def, set.as_slice()) {
        return Err(Refused::Sql(1054));
    }
    known_condition(def, condition)?;
    if has_wrong_sum(def, set.as_slice()) {
        return Err(Refused::Sql(1366));
    }
    let condition = converted_condition(alloc, def, condition)?;
    if has_missing_default(def, set.as_slice()) {
        return Err(Refused::Sql(1364));
    }
    Ok(BoundUpdate {
        set: set_at(alloc, def, set.as_slice())?,
        condition,
    })
}
