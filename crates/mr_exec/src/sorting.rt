//! Rows in the order of a reply, and LIMIT.

ghost use Rattle.std.specs.Prelude.{◌≡◌, OnOk};
ghost use Rattle.mr_spec.specs.Select.{sorted as in_order, limited as within_limit};
ghost use Rattle.mr_bound.specs.BoundSelects.{reply_by as reply_order};
ghost use Rattle.mr_exec.specs.Gathering.{IsReach};

use crate::orders::reply_by;
use mr_base::Memory;
use mr_bound::BoundOrder;
use mr_types::{Row, TableDef};
use std::alloc::AllocError;

/// Puts the rows in the order of a reply: by ORDER BY, and by the primary key or the hidden number
/// where that ties.
pub(crate) fn sort_rows(
    def: &TableDef,
    order: &[BoundOrder],
    rows: &mut Vec<Row>,
) -> Result<(), Memory>
    ensures { OnOk result (rows.new.items ≡ in_order (reply_order def.now order.now) rows.old.items) }
{
    match rows.sort_by(|r, s| reply_by(def, order, r, s)) {
        Ok(()) => Ok(()),
        Err(AllocError) => Err(Memory),
    }
}

/// LIMIT: so many rows left out in front, and then at most so many.
pub(crate) fn limited(skip: u64, most: Option<u64>, rows: &[Row]) -> &[Row]
    ensures { result.now ≡ within_limit skip most rows.now }
{
    let rest = &rows[rows.len().min(skip as usize)..];
    match most {
        None => rest,
        Some(most) => &rest[..rest.len().min(most as usize)],
    }
}

/// How many rows in front a LIMIT looks at; None for all of them, also where their number has no 64
/// bits.
pub(crate) fn reach_of(skip: u64, most: Option<u64>) -> Option<u64>
    ensures { IsReach skip most result }
{
    match most {
        None => None,
        Some(most) => skip.checked_add(most),
    }
}
