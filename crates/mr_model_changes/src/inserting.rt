//! The tuples of INSERT and REPLACE.

ghost use Rattle.std.specs.Prelude.{◌≡◌, ◌+◌, ◌++◌, ◌∷◌, [], map, filter, length, IfOk};
ghost use Rattle.mr_types.specs.declared.row.Change.TheVariants as kinds;
ghost use Rattle.mr_model_changes.specs.Leaving.{leaves, start_among};
ghost use Rattle.mr_model_changes.specs.Telling.{scene_in, Tells};
ghost use Rattle.mr_model_changes.specs.Writing.{exchanged as row_exchanged};
ghost use Rattle.mr_orders.specs.Orders.{IsAscending};
ghost use Rattle.mr_spec.specs.Rows.{clashes as clash, visible as seen_in};
ghost use Rattle.mr_spec.specs.Changes.{inserted as row_inserted, replaced as row_replaced};

use crate::new_rows::{new_row, next_behind};
use crate::scene::{Failed, Scene, told};
use crate::steps::{advanced, alone, claimed, drawn, is_free};
use crate::tuples::fields_of;
use crate::written::Written;
use mr_base::Memory;
use mr_model_rows::{clashes, is_visible};
use mr_spec::{Progress, RowList};
use mr_types::{Change, ChangeList, ItemValue, Row, TableDef};
use std::alloc::Global;

/// The insert of a row.
fn insert_of(alloc: Global, def: &TableDef, new: &Row) -> Result<Change, Memory>
    ensures { IfOk result (λ change. change ≡ kinds.Insert def.now.name new.now) }
{
    Ok(Change::Insert {
        table: def.name.copy(alloc)?,
        new: new.copy(alloc)?,
    })
}

/// A tuple of INSERT: its assignments, its number, then 1205, 1213, and 1062 where a visible row
/// has the values of one of its keys.
pub(crate) fn inserted(
    alloc: Global,
    scene: &Scene,
    at: &[usize],
    so_far: Progress,
    tuple: &[ItemValue],
) -> Result<Progress, Failed>
    requires rising { IsAscending scene.now.def.now so_far.rows }
    ensures tells { Tells result (row_inserted (scene_in scene.now) at.now so_far tuple.now) }
    ensures rising { IfOk result (λ g. IsAscending scene.now.def.now g.rows) }
{
    let fields = told(so_far.next, fields_of(alloc, scene.def, at, tuple))?;
    let new = new_row(scene, so_far.next, fields)?;
    let made = alone(alloc, insert_of(alloc, scene.def, &new)?)?;
    let drawn = drawn(scene.def, so_far)?;
    told(drawn.next, claimed(scene, made.as_slice()))?;
    told(drawn.next, is_free(scene, &new, drawn.rows.as_slice()))?;
    Ok(advanced(alloc, scene, made, 1, drawn)?)
}

/// The same of a statement's only tuple, among rows that stay where they lie.
pub(crate) fn inserted_among(
    alloc: Global,
    scene: &Scene,
    at: &[usize],
    rows: &[Row],
    next: u64,
    tuple: &[ItemValue],
) -> Result<Written, Failed>
    requires rising { IsAscending scene.now.def.now rows.now }
    ensures { Tells result (leaves (row_inserted (scene_in scene.now) at.now (start_among rows.now next) tuple.now)) }
{
    let fields = told(next, fields_of(alloc, scene.def, at, tuple))?;
    let new = new_row(scene, next, fields)?;
    let made = alone(alloc, insert_of(alloc, scene.def, &new)?)?;
    let next = next_behind(scene.def, next)?;
    told(next, claimed(scene, made.as_slice()))?;
    told(next, is_free(scene, &new, rows))?;
    Ok(Written {
        changes: made,
        next,
        count: 1,
    })
}

/// The deletes of these rows.
fn deletes_of(alloc: Global, def: &TableDef, gone: &[Row]) -> Result<ChangeList, Memory>
    ensures { IfOk result (λ changes. changes ≡ map (kinds.Delete def.now.name) gone.now) }
{
    let mut changes = ChangeList::new(alloc);
    for row in gone {
        changes.push(Change::Delete {
            table: def.name.copy(alloc)?,
            old: row.copy(alloc)?,
        })?;
    }
    Ok(changes)
}

/// The deletes of these rows, and the insert of another.
fn replacement(alloc: Global, def: &TableDef, gone: &[Row], new: &Row) -> Result<ChangeList, Memory>
    ensures changes { IfOk result (λ made. made ≡ map (kinds.Delete def.now.name) gone.now ++ kinds.Insert def.now.name new.now ∷ []) }
    ensures count { IfOk result (λ made. length made ≡ length gone.now + 1) }
{
    let mut made = deletes_of(alloc, def, gone)?;
    made.push(insert_of(alloc, def, new)?)?;
    Ok(made)
}

/// The visible rows that have the values of one of the row's keys.
fn rows_in_the_way(alloc: Global, scene: &Scene, new: &Row, rows: &[Row]) -> Result<RowList, Memory>
    ensures { IfOk result (λ gone. gone ≡ filter (clash scene.now.def.now new.now) (seen_in scene.now.def.now scene.now.moment rows.now)) }
{
    let mut gone = RowList::new(alloc);
    for row in rows {
        if is_visible(scene.def, scene.moment, row) && clashes(scene.def, new, row) {
            gone.push(row.copy(alloc)?)?;
        }
    }
    Ok(gone)
}

/// The row in the place of these, which are gone; its number is drawn, then 1205 and 1213.
fn exchanged(
    alloc: Global,
    scene: &Scene,
    new: &Row,
    gone: &[Row],
    so_far: Progress,
) -> Result<Progress, Failed>
    requires rising { IsAscending scene.now.def.now so_far.rows }
    ensures tells { Tells result (row_exchanged (scene_in scene.now) new.now gone.now so_far) }
    ensures rising { IfOk result (λ g. IsAscending scene.now.def.now g.rows) }
{
    let made = replacement(alloc, scene.def, gone, new)?;
    let drawn = drawn(scene.def, so_far)?;
    told(drawn.next, claimed(scene, made.as_slice()))?;
    let count = made.len() as u64;
    Ok(advanced(alloc, scene, made, count, drawn)?)
}

/// A tuple of REPLACE: the visible rows that have the values of one of its keys are deleted, and
/// the new one is inserted.
pub(crate) fn replaced(
    alloc: Global,
    scene: &Scene,
    at: &[usize],
    so_far: Progress,
    tuple: &[ItemValue],
) -> Result<Progress, Failed>
    requires rising { IsAscending scene.now.def.now so_far.rows }
    ensures tells { Tells result (row_replaced (scene_in scene.now) at.now so_far tuple.now) }
    ensures rising { IfOk result (λ g. IsAscending scene.now.def.now g.rows) }
{
    let fields = told(so_far.next, fields_of(alloc, scene.def, at, tuple))?;
    let new = new_row(scene, so_far.next, fields)?;
    let gone = rows_in_the_way(alloc, scene, &new, so_far.rows.as_slice())?;
    exchanged(alloc, scene, &new, gone.as_slice(), so_far)
}
