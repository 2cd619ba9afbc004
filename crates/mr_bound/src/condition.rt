//! WHERE, bound to a table.

ghost use Rattle.std.specs.Prelude.{◌≡◌, ◌≤◌, length, Ok};
ghost use Rattle.mr_types.specs.Values.{Answers};
ghost use Rattle.mr_spec.specs.Truth.{where_of, known_columns as known};
ghost use Rattle.mr_bound.specs.BoundSelects.{converted_condition as converted_in};

use mr_bind::{bind, known_columns};
use mr_spec::Bound;
use mr_types::{Expr, Refused, TableDef};
use std::alloc::Global;

/// 1054 exactly where WHERE names a column that isn't there.
pub(crate) fn known_condition(def: &TableDef, condition: &Option<Expr>) -> Result<(), Refused>
    ensures { Answers result (known def.now (where_of condition.now)) }
{
    match condition {
        None => Ok(()),
        Some(expr) => known_columns(def, expr),
    }
}

/// The bound condition, whose columns are there, or 1366.
pub(crate) fn converted_condition(
    alloc: Global,
    def: &TableDef,
    condition: &Option<Expr>,
) -> Result<Option<Bound>, Refused>
    requires few { length def.now.columns ≤ 255 }
    requires there { known def.now (where_of condition.now) ≡ Ok tt }
    ensures { Answers result (converted_in def.now condition.now) }
{
    match condition {
        None => Ok(None),
        Some(expr) => match bind(alloc, def, expr) {
            Ok(bound) => Ok(Some(bound)),
            Err(refused) => Err(refused),
        },
    }
}
