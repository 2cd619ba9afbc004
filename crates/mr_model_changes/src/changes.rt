//! The changes that a writing statement makes, row by row, or its refusal.

ghost use Rattle.std.specs.Prelude.{◌≡◌, IfOk, length};
ghost use Rattle.mr_types.specs.Refusals.{in_turn};
ghost use Rattle.mr_model_changes.specs.Leaving.{leaves, start_among};
ghost use Rattle.mr_model_changes.specs.Telling.{scene_in, Tells};
ghost use Rattle.mr_orders.specs.Orders.{IsAscending};
ghost use Rattle.mr_spec.specs.Truth.{where_of};
ghost use Rattle.mr_spec.specs.Changes.{inserted as row_inserted, replaced as row_replaced, deleted as row_deleted, updated as row_updated, insert_changes as inserts_of, replace_changes as replaces_of, chosen as rows_chosen, update_changes as updates_of, delete_changes as deletes_of};

use crate::inserting::{inserted, inserted_among, replaced};
use crate::scene::{Failed, Scene, told};
use crate::setting::update_tests;
use crate::steps::seen_rows;
use crate::tuples::insert_tests;
use crate::updating::{deleted, updated};
use crate::written::Written;
use mr_base::Memory;
use mr_model_rows::{kept_by, known_columns, right_literals};
use mr_spec::{Progress, RowList};
use mr_types::{Expr, Insert, Row, SetItem, Tuple};
use std::alloc::Global;

// ---- INSERT and REPLACE

fn all_inserted(
    alloc: Global,
    scene: &Scene,
    at: &[usize],
    start: Progress,
    tuples: &[Tuple],
) -> Result<Progress, Failed>
    requires rising { IsAscending scene.now.def.now start.rows }
    ensures { Tells result (in_turn (row_inserted (scene_in scene.now) at.now) start tuples.now) }
{
    let mut so_far = start;
    for tuple in tuples {
        so_far = inserted(alloc, scene, at, so_far, tuple.as_slice())?;
    }
    Ok(so_far)
}

/// INSERT, in text order: the progress behind its last row, or the first refusal.
pub fn insert_changes(
    alloc: Global,
    scene: &Scene,
    statement: &Insert,
    start: Progress,
) -> Result<Progress, Failed>
    requires rising { IsAscending scene.now.def.now start.rows }
    ensures { Tells result (inserts_of (scene_in scene.now) statement.now start) }
{
    let at = told(start.next, insert_tests(alloc, scene.def, statement))?;
    all_inserted(
        alloc,
        scene,
        at.as_slice(),
        start,
        statement.rows.as_slice(),
    )
}

/// INSERT of one tuple, among rows that stay where they lie: what it leaves, or its refusal.
pub fn insert_one(
    alloc: Global,
    scene: &Scene,
    statement: &Insert,
    rows: &[Row],
    next: u64,
) -> Result<Written, Failed>
    requires one { length statement.now.rows ≡ 1 }
    requires rising { IsAscending scene.now.def.now rows.now }
    ensures { Tells result (leaves (inserts_of (scene_in scene.now) statement.now (start_among rows.now next))) }
{
    let at = told(next, insert_tests(alloc, scene.def, statement))?;
    let tuple = &statement.rows.as_slice()[0];
    inserted_among(alloc, scene, at.as_slice(), rows, next, tuple.as_slice())
}

fn all_replaced(
    alloc: Global,
    scene: &Scene,
    at: &[usize],
    start: Progress,
    tuples: &[Tuple],
) -> Result<Progress, Failed>
    requires rising { IsAscending scene.now.def.now start.rows }
    ensures { Tells result (in_turn (row_replaced (scene_in scene.now) at.now) start tuples.now) }
{
    let mut so_far = start;
    for tuple in tuples {
        so_far = replaced(alloc, scene, at, so_far, tuple.as_slice())?;
    }
    Ok(so_far)
}

/// REPLACE, in text order: the progress behind its last row, or the first refusal.
pub fn replace_changes(
    alloc: Global,
    scene: &Scene,
    statement: &Insert,
    start: Progress,
) -> Result<Progress, Failed>
    requires rising { IsAscending scene.now.def.now start.rows }
    ensures { Tells result (replaces_of (scene_in scene.now) statement.now start) }
{
    let at = told(start.next, insert_tests(alloc, scene.def, statement))?;
    all_replaced(
        alloc,
        scene,
        at.as_slice(),
        start,
        statement.rows.as_slice(),
    )
}

// ---- UPDATE and DELETE

/// The rows that UPDATE and DELETE handle, fixed at the statement's start.
fn chosen(
    alloc: Global,
    scene: &Scene,
    condition: &Option<Expr>,
    start: &Progress,
) -> Result<RowList, Memory>
    ensures { IfOk result (λ rows. rows ≡ rows_chosen (scene_in scene.now) (where_of condition.now) start.now) }
{
    let seen = seen_rows(alloc, scene, start)?;
    kept_by(alloc, scene.def, condition, seen.as_slice())
}

fn all_updated(
    alloc: Global,
    scene: &Scene,
    set: &[SetItem],
    start: Progress,
    rows: &[Row],
) -> Result<Progress, Failed>
    requires rising { IsAscending scene.now.def.now start.rows }
    ensures { Tells result (in_turn (row_updated (scene_in scene.now) set.now) start rows.now) }
{
    let mut so_far = start;
    for row in rows {
        so_far = updated(alloc, scene, set, so_far, row)?;
    }
    Ok(so_far)
}

/// UPDATE, in primary-key order: the progress behind its last row, or the first refusal.
pub fn update_changes(
    alloc: Global,
    scene: &Scene,
    set: &[SetItem],
    condition: &Option<Expr>,
    start: Progress,
) -> Result<Progress, Failed>
    requires rising { IsAscending scene.now.def.now start.rows }
    ensures { Tells result (updates_of (scene_in scene.now) set.now (where_of condition.now) start) }
{
    told(start.next, update_tests(alloc, scene.def, set, condition))?;
    let rows = chosen(alloc, scene, condition, &start)?;
    all_updated(alloc, scene, set, start, rows.as_slice())
}

fn all_deleted(
    alloc: Global,
    scene: &Scene,
    start: Progress,
    rows: &[Row],
) -> Result<Progress, Failed>
    requires rising { IsAscending scene.now.def.now start.rows }
    ensures { Tells result (in_turn (row_deleted (scene_in scene.now)) start rows.now) }
{
    let mut so_far = start;
    for row in rows {
        so_far = deleted(alloc, scene, so_far, row)?;
    }
    Ok(so_far)
}

/// DELETE, in primary-key order: 1054, 1366, then the rows; the progress behind the last one, or the
/// first refusal.
pub fn delete_changes(
    alloc: Global,
    scene: &Scene,
    condition: &Option<Expr>,
    start: Progress,
) -> Result<Progress, Failed>
    requires rising { IsAscending scene.now.def.now start.rows }
    ensures { Tells result (deletes_of (scene_in scene.now) (where_of condition.now) start) }
{
    told(start.next, known_columns(scene.def, condition))?;
    told(start.next, right_literals(alloc, scene.def, condition))?;
    let rows = chosen(alloc, scene, condition, &start)?;
    all_deleted(alloc, scene, start, rows.as_slice())
}
