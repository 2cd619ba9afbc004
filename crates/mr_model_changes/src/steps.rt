//! What the rows of all writing statements go through.

ghost use Rattle.std.specs.Prelude.{◌≡◌, ◌&&◌, not, ◌∷◌, [], fold, IfOk};
ghost use Rattle.std.specs.List.{list_any};
ghost use Rattle.mr_types.specs.Refusals.{refuse_where};
ghost use Rattle.mr_types.specs.Values.{Answers};
ghost use Rattle.mr_model_changes.specs.Telling.{scene_in};
ghost use Rattle.mr_orders.specs.Orders.{IsAscending};
ghost use Rattle.mr_spec.specs.Claims.{has_claim_in as claim_in, claimed as is_claimed};
ghost use Rattle.mr_spec.specs.NewRows.{drawn as number_drawn};
ghost use Rattle.mr_spec.specs.Progress.{seen_rows as rows_seen, advanced as gone_on};
ghost use Rattle.mr_spec.specs.Rows.{clashes as clash, rows_after as rows_behind, same_primary as has_primary, is_visible as is_seen, visible as seen_in, without as left_without};

use crate::new_rows::next_behind;
use crate::scene::Scene;
use mr_base::Memory;
use mr_model_rows::{clashes, has_claim_in, is_visible, rows_after, same_primary, search, visible};
use mr_spec::{Progress, RowList};
use mr_types::{Change, ChangeList, Refused, Row, TableDef};
use std::alloc::Global;

/// The rows that the statement sees, its own changes among them.
pub(crate) fn seen_rows(alloc: Global, scene: &Scene, so_far: &Progress) -> Result<RowList, Memory>
    ensures { IfOk result (λ rows. rows ≡ rows_seen (scene_in scene.now) so_far.now) }
{
    visible(alloc, scene.def, scene.moment, so_far.rows.as_slice())
}

/// The number drawn, where the table has hidden ones.
pub(crate) fn drawn(def: &TableDef, so_far: Progress) -> Result<Progress, Memory>
    ensures drawn { IfOk result (λ g. g ≡ number_drawn def.now so_far) }
    ensures rows { IfOk result (λ g. g.rows ≡ so_far.rows) }
{
    let mut so_far = so_far;
    so_far.next = next_behind(def, so_far.next)?;
    Ok(so_far)
}

/// Whether one of these changes has a claim in common with others.
fn is_claimed_by(def: &TableDef, others: &[Change], made: &[Change]) -> bool
    ensures { result ≡ list_any (claim_in def.now others.now) made.now }
{
    made.iter().any(|change| has_claim_in(def, others, change))
}

/// 1205 where another session holds a claim of these changes, 1213 where a later commit has one.
pub(crate) fn claimed(scene: &Scene, made: &[Change]) -> Result<(), Refused>
    ensures { Answers result (is_claimed (scene_in scene.now).held (scene_in scene.now).changed made.now) }
{
    if is_claimed_by(scene.def, scene.held, made) {
        return Err(Refused::Sql(1205));
    }
    if is_claimed_by(scene.def, scene.changed, made) {
        return Err(Refused::Sql(1213));
    }
    Ok(())
}

/// Whether a secondary key is unique.
fn has_unique_key(def: &TableDef) -> bool
    ensures { result ≡ list_any (λ k. k.unique) def.now.secondary }
{
    def.secondary.as_slice().iter().any(|key| key.unique)
}

/// Whether the row with the primary key of this one is visible.
fn is_key_taken(scene: &Scene, new: &Row, rows: &[Row]) -> bool
    requires rising { IsAscending scene.now.def.now rows.now }
    ensures { result ≡ list_any (has_primary scene.now.def.now new.now) (seen_in scene.now.def.now scene.now.moment rows.now) }
{
    match search(scene.def, new, rows) {
        Ok(at) => is_visible(scene.def, scene.moment, &rows[at]),
        Err(_) => false,
    }
}

/// Whether one of these rows that is visible has the values of one of the row's keys, by a look at each.
fn is_some_key_taken(scene: &Scene, new: &Row, rows: &[Row]) -> bool
    ensures { result ≡ list_any (clash scene.now.def.now new.now) (seen_in scene.now.def.now scene.now.moment rows.now) }
{
    for row in rows {
        if is_visible(scene.def, scene.moment, row) && clashes(scene.def, new, row) {
            return true;
        }
    }
    false
}

/// Whether one of these rows that is visible has the values of one of the row's keys. Without a unique
/// secondary key the primary key is looked up.
#[tactic(auto, using(crate::proofs::Keys::plain_clash))]
fn is_taken_visibly(scene: &Scene, new: &Row, rows: &[Row]) -> bool
    requires rising { IsAscending scene.now.def.now rows.now }
    ensures { result ≡ list_any (clash scene.now.def.now new.now) (seen_in scene.now.def.now scene.now.moment rows.now) }
{
    if has_unique_key(scene.def) {
        is_some_key_taken(scene, new, rows)
    } else {
        is_key_taken(scene, new, rows)
    }
}

/// 1062 where one of these rows that is visible has the values of one of the row's keys.
pub(crate) fn is_free(scene: &Scene, new: &Row, rows: &[Row]) -> Result<(), Refused>
    requires rising { IsAscending scene.now.def.now rows.now }
    ensures { Answers result (refuse_where 1062 (list_any (clash scene.now.def.now new.now) (seen_in scene.now.def.now scene.now.moment rows.now))) }
{
    if is_taken_visibly(scene, new, rows) {
        return Err(Refused::Sql(1062));
    }
    Ok(())
}

/// Whether a row is visible and has another primary key than `old`.
fn is_other_visible(scene: &Scene, old: &Row, row: &Row) -> bool
    ensures { result ≡ (is_seen scene.now.def.now scene.now.moment row.now && not (has_primary scene.now.def.now old.now row.now)) }
{
    is_visible(scene.def, scene.moment, row) && !same_primary(scene.def, old, row)
}

/// Whether the row with the primary key of this one is visible, and another than the one with that of
/// `old`.
fn is_key_taken_beside(scene: &Scene, old: &Row, new: &Row, rows: &[Row]) -> bool
    requires rising { IsAscending scene.now.def.now rows.now }
    ensures { result ≡ list_any (has_primary scene.now.def.now new.now) (left_without scene.now.def.now old.now (seen_in scene.now.def.now scene.now.moment rows.now)) }
{
    match search(scene.def, new, rows) {
        Ok(at) => is_other_visible(scene, old, &rows[at]),
        Err(_) => false,
    }
}

/// Whether one of these rows that is visible, but for the one with the key of `old`, has the values of
/// one of the row's keys, by a look at each.
fn is_some_key_taken_beside(scene: &Scene, old: &Row, new: &Row, rows: &[Row]) -> bool
    ensures { result ≡ list_any (clash scene.now.def.now new.now) (left_without scene.now.def.now old.now (seen_in scene.now.def.now scene.now.moment rows.now)) }
{
    for row in rows {
        if is_visible(scene.def, scene.moment, row)
            && !same_primary(scene.def, old, row)
            && clashes(scene.def, new, row)
        {
            return true;
        }
    }
    false
}

/// Whether one of these rows that is visible, but for the one with the key of `old`, has the values of
/// one of the row's keys. Without a unique secondary key the primary key is looked up.
#[tactic(auto, using(crate::proofs::Keys::plain_clash))]
fn is_taken_beside(scene: &Scene, old: &Row, new: &Row, rows: &[Row]) -> bool
    requires rising { IsAscending scene.now.def.now rows.now }
    ensures { result ≡ list_any (clash scene.now.def.now new.now) (left_without scene.now.def.now old.now (seen_in scene.now.def.now scene.now.moment rows.now)) }
{
    if has_unique_key(scene.def) {
        is_some_key_taken_beside(scene, old, new, rows)
    } else {
        is_key_taken_beside(scene, old, new, rows)
    }
}

/// 1062 where one of these rows that is visible, but for the one with the key of `old`, has the values
/// of one of the row's keys.
pub(crate) fn is_free_beside(
    scene: &Scene,
    old: &Row,
    new: &Row,
    rows: &[Row],
) -> Result<(), Refused>
    requires rising { IsAscending scene.now.def.now rows.now }
    ensures { Answers result (refuse_where 1062 (list_any (clash scene.now.def.now new.now) (left_without scene.now.def.now old.now (seen_in scene.now.def.now scene.now.moment rows.now)))) }
{
    if is_taken_beside(scene, old, new, rows) {
        return Err(Refused::Sql(1062));
    }
    Ok(())
}

/// One change alone.
pub(crate) fn alone(alloc: Global, change: Change) -> Result<ChangeList, Memory>
    ensures { IfOk result (λ changes. changes ≡ change ∷ []) }
{
    let mut changes = ChangeList::new(alloc);
    changes.push(change)?;
    Ok(changes)
}

/// The rows after these changes.
fn rows_after_all(
    alloc: Global,
    def: &TableDef,
    rows: RowList,
    made: &[Change],
) -> Result<RowList, Memory>
    requires rising { IsAscending def.now rows }
    ensures rows { IfOk result (λ all. all ≡ fold (rows_behind def.now) rows made.now) }
    ensures rising { IfOk result (λ all. IsAscending def.now all) }
{
    let mut all = rows;
    for change in made {
        all = rows_after(alloc, def, all, change)?;
    }
    Ok(all)
}

/// These changes done, which count for so many rows. A count above 64 bits can't be kept: want of
/// memory stands for that.
pub(crate) fn advanced(
    alloc: Global,
    scene: &Scene,
    made: ChangeList,
    count: u64,
    so_far: Progress,
) -> Result<Progress, Memory>
    requires rising { IsAscending scene.now.def.now so_far.rows }
    ensures advanced { IfOk result (λ g. g ≡ gone_on (scene_in scene.now) made count so_far) }
    ensures rising { IfOk result (λ g. IsAscending scene.now.def.now g.rows) }
{
    let rows = rows_after_all(alloc, scene.def, so_far.rows, made.as_slice())?;
    let Some(count) = so_far.count.checked_add(count) else {
        return Err(Memory);
    };
    let mut changes = so_far.changes;
    changes.append(made)?;
    Ok(Progress {
        rows,
        changes,
        next: so_far.next,
        count,
    })
}
