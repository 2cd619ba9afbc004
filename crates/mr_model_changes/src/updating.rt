//! The rows of UPDATE and DELETE.

ghost use Rattle.std.specs.Prelude.{◌≡◌, IfOk};
ghost use Rattle.mr_types.specs.declared.row.Change.TheVariants as kinds;
ghost use Rattle.mr_types.specs.Refusals.{in_turn};
ghost use Rattle.mr_types.specs.Values.{Answers};
ghost use Rattle.mr_model_changes.specs.Telling.{scene_in, Tells};
ghost use Rattle.mr_orders.specs.Orders.{IsAscending};
ghost use Rattle.mr_spec.specs.Changes.{deleted as row_deleted, moved as row_moved, updated as row_updated};
ghost use Rattle.mr_spec.specs.Setting.{with_item as and_item};

use crate::scene::{Failed, Scene, told};
use crate::setting::{same_fields, updated_row, with_item};
use crate::steps::{advanced, alone, claimed, is_free_beside};
use mr_base::Memory;
use mr_spec::Progress;
use mr_types::{Change, Refused, Row, SetItem, TableDef, ValueList, copy_values};
use std::alloc::Global;

/// The delete of a row.
fn delete_of(alloc: Global, def: &TableDef, old: &Row) -> Result<Change, Memory>
    ensures { IfOk result (λ change. change ≡ kinds.Delete def.now.name old.now) }
{
    Ok(Change::Delete {
        table: def.name.copy(alloc)?,
        old: old.copy(alloc)?,
    })
}

/// A row of DELETE: 1205, 1213.
pub(crate) fn deleted(
    alloc: Global,
    scene: &Scene,
    so_far: Progress,
    old: &Row,
) -> Result<Progress, Failed>
    requires rising { IsAscending scene.now.def.now so_far.rows }
    ensures tells { Tells result (row_deleted (scene_in scene.now) so_far old.now) }
    ensures rising { IfOk result (λ g. IsAscending scene.now.def.now g.rows) }
{
    let made = alone(alloc, delete_of(alloc, scene.def, old)?)?;
    told(so_far.next, claimed(scene, made.as_slice()))?;
    Ok(advanced(alloc, scene, made, 1, so_far)?)
}

/// The update of a row.
fn update_of(alloc: Global, def: &TableDef, old: &Row, new: &Row) -> Result<Change, Memory>
    ensures { IfOk result (λ change. change ≡ kinds.Update def.now.name old.now new.now) }
{
    Ok(Change::Update {
        table: def.name.copy(alloc)?,
        old: old.copy(alloc)?,
        new: new.copy(alloc)?,
    })
}

/// An old row becomes a new one: 1205, 1213, and 1062 where another visible row has the values of
/// one of its keys.
fn moved(
    alloc: Global,
    scene: &Scene,
    so_far: Progress,
    old: &Row,
    new: &Row,
) -> Result<Progress, Failed>
    requires rising { IsAscending scene.now.def.now so_far.rows }
    ensures tells { Tells result (row_moved (scene_in scene.now) so_far old.now new.now) }
    ensures rising { IfOk result (λ g. IsAscending scene.now.def.now g.rows) }
{
    let made = alone(alloc, update_of(alloc, scene.def, old, new)?)?;
    told(so_far.next, claimed(scene, made.as_slice()))?;
    told(
        so_far.next,
        is_free_beside(scene, old, new, so_far.rows.as_slice()),
    )?;
    Ok(advanced(alloc, scene, made, 1, so_far)?)
}

/// The fields of a row after these assignments, each of which sees those before it.
fn fields_set(
    alloc: Global,
    def: &TableDef,
    old: &ValueList,
    set: &[SetItem],
) -> Result<ValueList, Refused>
    ensures { Answers result (in_turn (and_item def.now) old.now set.now) }
{
    let mut fields = copy_values(alloc, old)?;
    for item in set {
        fields = with_item(alloc, def, fields, item)?;
    }
    Ok(fields)
}

/// A row of UPDATE: its assignments; where each field stays byte for byte there is no change.
pub(crate) fn updated(
    alloc: Global,
    scene: &Scene,
    set: &[SetItem],
    so_far: Progress,
    old: &Row,
) -> Result<Progress, Failed>
    requires rising { IsAscending scene.now.def.now so_far.rows }
    ensures tells { Tells result (row_updated (scene_in scene.now) set.now so_far old.now) }
    ensures rising { IfOk result (λ g. IsAscending scene.now.def.now g.rows) }
{
    let fields = told(so_far.next, fields_set(alloc, scene.def, &old.fields, set))?;
    if same_fields(old.fields.as_slice(), fields.as_slice()) {
        return Ok(so_far);
    }
    let new = updated_row(scene.def, old, fields)?;
    moved(alloc, scene, so_far, old, &new)
}
