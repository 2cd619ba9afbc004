//! What is wrong with the assignments of a SET, whatever the rows are.

ghost use Rattle.std.specs.Prelude.{◌≡◌, ◌&&◌, ◌||◌};
ghost use Rattle.std.specs.List.{list_any};
ghost use Rattle.mr_types.specs.declared.statement.Factor.TheVariants.{Column};
ghost use Rattle.mr_spec.specs.Truth.{is_unknown as unknown_in};
ghost use Rattle.mr_spec.specs.Setting.{is_single as is_alone, is_text as is_text_value, is_text_factor as text_factor, is_wrong_sum as wrong_sum, is_unknown_factor as unknown_factor, has_unknown_to as unknown_to, is_default_to as default_to, lacks_default as without_default};

use mr_bind::{is_unknown, kind_at, place_of};
use mr_types::{Factor, Kind, SetItem, SetTo, TableDef, Term, Value};

/// Whether the sum is one factor alone.
fn is_single(terms: &[Term]) -> bool
    ensures { result ≡ is_alone terms.now }
{
    match terms {
        [] => true,
        [term] => term.factors.len() == 1,
        _ => false,
    }
}

/// Whether the literal is a text or bytes.
fn is_text(value: &Value) -> bool
    ensures { result ≡ is_text_value value.now }
{
    match value {
        Value::Null | Value::Number(_) => false,
        Value::Text(_) | Value::Bytes(_) => true,
    }
}

/// Whether the column of this name holds texts or bytes.
fn is_text_column(def: &TableDef, name: &[u8]) -> bool
    ensures { result ≡ text_factor def.now (Column name.now) }
{
    match place_of(def, name) {
        Some(place) => match kind_at(def, place) {
            Kind::VarChar(..) | Kind::VarBinary(_) => true,
            _ => false,
        },
        None => false,
    }
}

/// Whether the factor is a column or literal of texts or bytes.
fn is_text_factor(def: &TableDef, factor: &Factor) -> bool
    ensures { result ≡ text_factor def.now factor.now }
{
    match factor {
        Factor::Column(name) => is_text_column(def, name.as_slice()),
        Factor::Literal(value) => is_text(value),
    }
}

fn has_text_factor(def: &TableDef, factors: &[Factor]) -> bool
    ensures { result ≡ list_any (text_factor def.now) factors.now }
{
    factors.iter().any(|factor| is_text_factor(def, factor))
}

fn has_text(def: &TableDef, terms: &[Term]) -> bool
    ensures { result ≡ list_any (λ t. list_any (text_factor def.now) t.factors) terms.now }
{
    terms
        .iter()
        .any(|term| has_text_factor(def, term.factors.as_slice()))
}

/// Whether this is arithmetic on texts or bytes.
fn is_wrong_sum(def: &TableDef, to: &SetTo) -> bool
    ensures { result ≡ wrong_sum def.now to.now }
{
    match to {
        SetTo::Default => false,
        SetTo::Sum(terms) => !is_single(terms.as_slice()) && has_text(def, terms.as_slice()),
    }
}

/// Whether one of these assignments is arithmetic on texts or bytes.
pub(crate) fn has_wrong_sum(def: &TableDef, set: &[SetItem]) -> bool
    ensures { result ≡ list_any (λ s. wrong_sum def.now s.to) set.now }
{
    set.iter().any(|item| is_wrong_sum(def, &item.to))
}

// ---- columns that aren't there

fn is_unknown_factor(def: &TableDef, factor: &Factor) -> bool
    ensures { result ≡ unknown_factor def.now factor.now }
{
    match factor {
        Factor::Column(name) => is_unknown(def, name.as_slice()),
        Factor::Literal(_) => false,
    }
}

fn has_unknown_factor(def: &TableDef, factors: &[Factor]) -> bool
    ensures { result ≡ list_any (unknown_factor def.now) factors.now }
{
    factors.iter().any(|factor| is_unknown_factor(def, factor))
}

fn has_unknown_term(def: &TableDef, terms: &[Term]) -> bool
    ensures { result ≡ list_any (λ t. list_any (unknown_factor def.now) t.factors) terms.now }
{
    terms
        .iter()
        .any(|term| has_unknown_factor(def, term.factors.as_slice()))
}

/// Whether the sum names a column that isn't there.
fn has_unknown_to(def: &TableDef, to: &SetTo) -> bool
    ensures { result ≡ unknown_to def.now to.now }
{
    match to {
        SetTo::Default => false,
        SetTo::Sum(terms) => has_unknown_term(def, terms.as_slice()),
    }
}

fn names_unknown(def: &TableDef, item: &SetItem) -> bool
    ensures { result ≡ (unknown_in def.now item.now.column || unknown_to def.now item.now.to) }
{
    is_unknown(def, item.column.as_slice()) || has_unknown_to(def, &item.to)
}

/// Whether one of these assignments names a column that isn't there.
pub(crate) fn has_unknown_column(def: &TableDef, set: &[SetItem]) -> bool
    ensures { result ≡ list_any (λ s. unknown_in def.now s.column || unknown_to def.now s.to) set.now }
{
    set.iter().any(|item| names_unknown(def, item))
}

// ---- defaults that aren't there

/// Whether the column of this name has no default.
fn lacks_default(def: &TableDef, name: &[u8]) -> bool
    ensures { result ≡ without_default def.now name.now }
{
    match place_of(def, name) {
        Some(place) => match def.columns.get(place) {
            Some(column) => column.default.is_none(),
            None => false,
        },
        None => false,
    }
}

fn misses_default(def: &TableDef, item: &SetItem) -> bool
    ensures { result ≡ (default_to item.now.to && without_default def.now item.now.column) }
{
    match item.to {
        SetTo::Default => lacks_default(def, item.column.as_slice()),
        SetTo::Sum(_) => false,
    }
}

/// Whether one of these assignments is DEFAULT for a column that has none.
pub(crate) fn has_missing_default(def: &TableDef, set: &[SetItem]) -> bool
    ensures { result ≡ list_any (λ s. default_to s.to && without_default def.now s.column) set.now }
{
    set.iter().any(|item| misses_default(def, item))
}
