//! The bound condition of a written one.

ghost use Rattle.std.specs.Prelude.{◌≡◌, ◌≤◌, ◌<◌, length};
ghost use Rattle.mr_types.specs.Refusals.{each};
ghost use Rattle.mr_types.specs.Values.{Answers, convert_to};
ghost use Rattle.mr_spec.specs.Binding.{bind as bind_in, place_or_first as place_in};
ghost use Rattle.mr_bind.specs.Converting.{converted_of};

use crate::columns::{kind_at, place_of};
use crate::names::known_columns;
use mr_spec::{Bound, BoundList};
use mr_types::{Expr, Kind, Refused, TableDef, Value, ValueList, convert};
use sqlite_items::Boxed;
use std::alloc::Global;

/// The place of a column that is there.
fn place_or_first(def: &TableDef, name: &[u8]) -> u8
    requires few { length def.now.columns ≤ 255 }
    ensures { result ≡ place_in def.now name.now }
{
    match place_of(def, name) {
        Some(place) => place as u8,
        None => 0,
    }
}

/// Each literal in a column's kind, or 1366.
fn converted(alloc: Global, kind: Kind, literals: &[Value]) -> Result<ValueList, Refused>
    ensures { Answers result (each (convert_to kind) literals.now) }
{
    let mut values = ValueList::new(alloc);
    for literal in literals {
        values.push(convert(alloc, literal, kind)?)?;
    }
    Ok(values)
}

/// The bound parts of a condition, or 1366.
fn bound_of(alloc: Global, def: &TableDef, expr: &Expr) -> Result<Bound, Refused>
    requires few { length def.now.columns ≤ 255 }
    ensures { Answers result (converted_of def.now expr.now) }
{
    match expr {
        Expr::Compare(name, cmp, literal) => {
            let place = place_or_first(def, name.as_slice());
            let value = convert(alloc, literal, kind_at(def, place as usize))?;
            Ok(Bound::Compare(place, *cmp, value))
        }
        Expr::IsNull(name) => Ok(Bound::IsNull(place_or_first(def, name.as_slice()))),
        Expr::Between(name, low, high) => {
            let place = place_or_first(def, name.as_slice());
            let kind = kind_at(def, place as usize);
            let low = convert(alloc, low, kind)?;
            let high = convert(alloc, high, kind)?;
            Ok(Bound::Between(place, low, high))
        }
        Expr::OneOf(name, literals) => {
            let place = place_or_first(def, name.as_slice());
            let values = converted(alloc, kind_at(def, place as usize), literals.as_slice())?;
            Ok(Bound::OneOf(place, values))
        }
        Expr::Not(part) => Ok(Bound::Not(Boxed::new(alloc, bound_of(alloc, def, part.get())?)?)),
        Expr::And(parts) => {
            let mut all = BoundList::new(alloc);
            for part in parts.as_slice() {
                all.push(bound_of(alloc, def, part)?)?;
            }
            Ok(Bound::And(all))
        }
        Expr::Or(parts) => {
            let mut some = BoundList::new(alloc);
            for choice in parts.as_slice() {
                some.push(bound_of(alloc, def, choice)?)?;
            }
            Ok(Bound::Or(some))
        }
    }
}

/// The bound condition: places in the place of names, and each literal converted to its column's
/// kind. 1054 exactly where a named column isn't in the table, else 1366 exactly where a literal
/// isn't converted. A definition that was checked has few columns.
#[tactic(auto, using(crate::proofs::Converted::bound_by))]
pub fn bind(alloc: Global, def: &TableDef, expr: &Expr) -> Result<Bound, Refused>
    requires few { length def.now.columns ≤ 255 }
    ensures { Answers result (bind_in def.now expr.now) }
{
    known_columns(def, expr)?;
    bound_of(alloc, def, expr)
}
