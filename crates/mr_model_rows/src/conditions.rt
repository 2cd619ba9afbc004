//! WHERE: the rows that it keeps.

ghost use Rattle.std.specs.Prelude.{◌≡◌, filter, IfOk};
ghost use Rattle.mr_spec.specs.Truth.{where_of, is_true as holds_true, is_unknown as unknown_in};

use crate::rows::place_of;
use crate::truth::truth_of;
use mr_base::Memory;
use mr_spec::{RowList, Truth};
use mr_types::{Expr, Row, TableDef};
use std::alloc::Global;

fn is_true(truth: Truth) -> bool
    ensures { result ≡ holds_true truth }
{
    match truth {
        Truth::True => true,
        Truth::False | Truth::Unknown => false,
    }
}

/// Whether WHERE keeps the row.
fn keeps(alloc: Global, def: &TableDef, condition: &Option<Expr>, row: &Row) -> Result<bool, Memory>
    ensures { IfOk result (λ kept. kept ≡ (where_of condition.now).keeps def.now row.now) }
{
    match condition {
        None => Ok(true),
        Some(expr) => Ok(is_true(truth_of(alloc, def, row, expr)?)),
    }
}

/// The rows that WHERE keeps.
pub fn kept_by(
    alloc: Global,
    def: &TableDef,
    condition: &Option<Expr>,
    rows: &[Row],
) -> Result<RowList, Memory>
    ensures { IfOk result (λ kept. kept ≡ filter ((where_of condition.now).keeps def.now) rows.now) }
{
    let mut kept = RowList::new(alloc);
    for row in rows {
        if keeps(alloc, def, condition, row)? {
            kept.push(row.copy(alloc)?)?;
        }
    }
    Ok(kept)
}

/// Whether the table has no column of this name.
pub fn is_unknown(def: &TableDef, name: &[u8]) -> bool
    ensures { result ≡ unknown_in def.now name.now }
{
    place_of(def, name).is_none()
}
