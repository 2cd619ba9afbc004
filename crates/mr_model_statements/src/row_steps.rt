//! Statements on the rows of a table.

ghost use Rattle.std.specs.Prelude.{◌≡◌, ◌++◌, nat_lt, Result, IfOk, OnOk, IsTrue};
ghost use Rattle.mr_spec.specs.declared.progress.Progress.{Progress as SoFar};
ghost use Rattle.mr_spec.specs.declared.progress.Refusal.{Refusal as Refusing};
ghost use Rattle.std.specs.Option.{option_map};
ghost use Rattle.mr_spec.specs.Database.{table_of, replay as replay_of};
ghost use Rattle.mr_spec.specs.Outcome.{Outcome, answered as answered_in};
ghost use Rattle.mr_spec.specs.RowSteps.{on_rows, rows_seen as rows_in_view, select_answer, select_outcome, start_of as start_in, scene_of, written as written_by, after_rows as behind_rows, write_outcome};
ghost use Rattle.mr_orders.specs.Orders.{IsAscending};
ghost use Rattle.mr_spec.specs.Truth.{where_of};
ghost use Rattle.mr_spec.specs.Weight.{total_weight};
ghost use Rattle.mr_spec.specs.World.{changes_by};
ghost use Rattle.mr_model_engine.specs.Acting.{Acts, Gives};
ghost use Rattle.mr_model_statements.specs.Left.{left_light, behind_left};
ghost use Rattle.mr_model_statements.specs.Opening.{bare, Opens, changes_by_writing};
ghost use Rattle.mr_model_changes.specs.Leaving.{leaves, start_among};
ghost use Rattle.mr_model_changes.specs.Telling.{Tells, scene_in};
ghost use Rattle.mr_model_engine.specs.Worlds.{keeps_view, world_in};
ghost use Rattle.std.specs.Prelude.{ℕ};

use mr_base::Memory;
use mr_model_changes::{
    Failed, Scene, Written, delete_changes, insert_changes, insert_one, left_of_progress,
    replace_changes, update_changes,
};
use mr_model_engine::{
    Engine, changed_later, changes_of_txn, committed_table, held_elsewhere, is_stale, keep_view,
    number_of, rows_seen,
};
use mr_model_rows::{copy_rows, is_too_heavy, visible};
use mr_model_select::{select_tests, selected};
use mr_spec::{Progress, Refusal};
use mr_types::{Change, ChangeList, Expr, Insert, Refused, Reply, Row, Select, SetItem, TableDef};
use std::alloc::Global;

/// The definition of the committed table of this name.
fn committed_def(alloc: Global, engine: &Engine, name: &[u8]) -> Result<Option<TableDef>, Memory>
    ensures { IfOk result (λ def. def ≡ option_map (λ t. t.def) (table_of name.now (replay_of engine.now.commits))) }
{
    match committed_table(engine, name)? {
        None => Ok(None),
        Some(table) => Ok(Some(table.def.copy(alloc)?)),
    }
}

/// 1146; then the snapshot is fixed and the table used; then 1412.
fn open_table(alloc: Global, engine: &mut Engine, name: &[u8]) -> Result<TableDef, Refused>
    ensures opens { Opens (world_in engine.old) (world_in engine.new) name.now result }
    ensures kept { OnOk result (IsTrue (keeps_view engine.new)) }
    ensures rising { IfOk result (λ def. IsAscending def (rows_in_view def.name (world_in engine.new))) }
{
    let Some(def) = committed_def(alloc, engine, name)? else {
        return Err(Refused::Sql(1146));
    };
    engine.enter(alloc, name)?;
    if is_stale(name, engine) {
        return Err(Refused::Sql(1412));
    }
    keep_view(alloc, engine)?;
    Ok(def)
}

/// An answer as an outcome.
pub fn answered(answer: Result<Reply, Refused>) -> Result<Reply, Memory>
    ensures { (before after : Engine) (given : Result Outcome ℕ) → Acts before after answer given → Gives after result (answered_in (world_in before) given) }
{
    match answer {
        Ok(reply) => Ok(reply),
        Err(Refused::Sql(code)) => Ok(Reply::Refused(code)),
        Err(Refused::Memory) => Err(Memory),
    }
}

// ---- SELECT

/// Its rows, or its first refusal.
fn select_in(
    alloc: Global,
    engine: &Engine,
    def: &TableDef,
    select: &Select,
) -> Result<Reply, Refused>
    requires kept { IsTrue (keeps_view engine.now) }
    ensures { Acts engine.now engine.now result (select_answer select.now (where_of select.now.condition) (bare def.now) (world_in engine.now)) }
{
    select_tests(alloc, def, select)?;
    let rows = rows_seen(engine, select.table.as_slice())?;
    let rows = visible(alloc, def, engine.moment, rows)?;
    Ok(Reply::Rows(selected(alloc, def, select, rows.as_slice())?))
}

/// SELECT. It changes no rows.
pub fn select(alloc: Global, engine: &mut Engine, select: &Select) -> Result<Reply, Memory>
    ensures { Gives engine.new result (on_rows select.now.table (select_outcome select.now (where_of select.now.condition)) (world_in engine.old)) }
{
    match open_table(alloc, engine, select.table.as_slice()) {
        Ok(def) => answered(select_in(alloc, engine, &def, select)),
        Err(Refused::Sql(code)) => Ok(Reply::Refused(code)),
        Err(Refused::Memory) => Err(Memory),
    }
}

// ---- INSERT, REPLACE, UPDATE and DELETE

/// A writing statement.
#[derive(Clone, Copy)]
pub enum Writing<'a> {
    Insert(&'a Insert),
    Replace(&'a Insert),
    /// The assignments, and the condition.
    Update(&'a [SetItem], &'a Option<Expr>),
    Delete(&'a Option<Expr>),
}

/// The changes of its rows from here.
fn changes_of(
    alloc: Global,
    scene: &Scene,
    writing: Writing,
    start: Progress,
) -> Result<Progress, Failed>
    requires rising { IsAscending scene.now.def.now start.rows }
    ensures { Tells result (changes_by_writing writing.entry (scene_in scene.now) start) }
{
    match writing {
        Writing::Insert(statement) => insert_changes(alloc, scene, statement, start),
        Writing::Replace(statement) => replace_changes(alloc, scene, statement, start),
        Writing::Update(set, condition) => update_changes(alloc, scene, set, condition, start),
        Writing::Delete(condition) => delete_changes(alloc, scene, condition, start),
    }
}

/// What it leaves, worked out on a copy of these rows.
fn left_on_copy(
    alloc: Global,
    scene: &Scene,
    writing: Writing,
    rows: &[Row],
    next: u64,
) -> Result<Written, Failed>
    requires rising { IsAscending scene.now.def.now rows.now }
    ensures { Tells result (leaves (changes_by_writing writing.entry (scene_in scene.now) (start_among rows.now next))) }
{
    let start = Progress {
        rows: copy_rows(alloc, rows)?,
        changes: ChangeList::new(alloc),
        next,
        count: 0,
    };
    let progress = changes_of(alloc, scene, writing, start)?;
    Ok(left_of_progress(progress))
}

/// What it leaves. INSERT of one tuple needs no copy of the rows.
fn left_among(
    alloc: Global,
    scene: &Scene,
    writing: Writing,
    rows: &[Row],
    next: u64,
) -> Result<Written, Failed>
    requires rising { IsAscending scene.now.def.now rows.now }
    ensures { Tells result (leaves (changes_by_writing writing.entry (scene_in scene.now) (start_among rows.now next))) }
{
    if let Writing::Insert(statement) = writing {
        if statement.rows.len() == 1 {
            return insert_one(alloc, scene, statement, rows, next);
        }
    }
    left_on_copy(alloc, scene, writing, rows, next)
}

/// Whether the transaction's changes, with these, are too heavy.
fn are_too_heavy(engine: &Engine, changes: &[Change]) -> Result<bool, Memory>
    ensures { IfOk result (λ b. b ≡ nat_lt 67108864 (total_weight (replay_of engine.now.commits) (changes_by engine.now.here.txn ++ changes.now))) }
{
    let before = changes_of_txn(&engine.here.txn);
    Ok(is_too_heavy(engine.tables()?, before, changes))
}

/// 1197 behind the last row: the transaction's changes are too heavy.
fn not_heavy(engine: &Engine, written: Written) -> Result<Written, Failed>
    ensures { Tells result (left_light (world_in engine.now) written) }
{
    if are_too_heavy(engine, written.changes.as_slice())? {
        return Err(Failed::Refused(Refusal {
            code: 1197,
            next: written.next,
        }));
    }
    Ok(written)
}

/// What all rows leave, from the start, among the claims of others.
fn all_changes(
    alloc: Global,
    engine: &Engine,
    def: &TableDef,
    writing: Writing,
) -> Result<Written, Failed>
    requires kept { IsTrue (keeps_view engine.now) }
    requires rising { IsAscending def.now (rows_in_view def.now.name (world_in engine.now)) }
    ensures { Tells result (leaves (changes_by_writing writing.entry (scene_of (bare def.now) (world_in engine.now)) (start_in (bare def.now) (world_in engine.now)))) }
{
    let held = held_elsewhere(alloc, engine, def.name.as_slice())?;
    let changed = changed_later(alloc, engine, def.name.as_slice())?;
    let scene = Scene {
        def,
        moment: engine.moment,
        held: held.as_slice(),
        changed: changed.as_slice(),
    };
    let rows = rows_seen(engine, def.name.as_slice())?;
    let next = number_of(engine, def.name.as_slice());
    left_among(alloc, &scene, writing, rows, next)
}

#[tactic(auto, using(crate::proofs::Left::left_written))]
fn written(
    alloc: Global,
    engine: &Engine,
    def: &TableDef,
    writing: Writing,
) -> Result<Written, Failed>
    requires kept { IsTrue (keeps_view engine.now) }
    requires rising { IsAscending def.now (rows_in_view def.now.name (world_in engine.now)) }
    ensures { Tells result (leaves (written_by (changes_by_writing writing.entry) (bare def.now) (world_in engine.now))) }
{
    let written = all_changes(alloc, engine, def, writing)?;
    not_heavy(engine, written)
}

/// A refused statement leaves the engine but for the numbers it drew; 1213 ends the transaction.
fn after_refusal(
    alloc: Global,
    engine: &mut Engine,
    name: &[u8],
    refusal: Refusal,
) -> Result<Reply, Memory>
    ensures { Gives engine.new result (behind_left name.now (world_in engine.old) (Err refusal)) }
{
    engine.set_number(alloc, name, refusal.next)?;
    if refusal.code == 1213 {
        engine.roll_back();
    }
    Ok(Reply::Refused(refusal.code))
}

/// A statement that is done keeps its changes, and the numbers it drew.
fn after_changes(
    alloc: Global,
    engine: &mut Engine,
    name: &[u8],
    written: Written,
) -> Result<Reply, Memory>
    ensures { Gives engine.new result (behind_left name.now (world_in engine.old) (Ok written)) }
{
    engine.set_number(alloc, name, written.next)?;
    engine.keep(alloc, written.changes)?;
    Ok(Reply::Ok(written.count))
}

/// What becomes of what a statement's rows leave.
#[tactic(auto, using(crate::proofs::Left::left_behind))]
fn after_rows(
    alloc: Global,
    engine: &mut Engine,
    name: &[u8],
    written: Result<Written, Failed>,
) -> Result<Reply, Memory>
    ensures { (answer : Result SoFar Refusing) → Tells written (leaves answer) → Gives engine.new result (behind_rows name.now (world_in engine.old) answer) }
{
    match written {
        Ok(written) => after_changes(alloc, engine, name, written),
        Err(Failed::Refused(refusal)) => after_refusal(alloc, engine, name, refusal),
        Err(Failed::Memory) => Err(Memory),
    }
}

/// A writing statement on a table.
pub fn write(
    alloc: Global,
    engine: &mut Engine,
    name: &[u8],
    writing: Writing,
) -> Result<Reply, Memory>
    ensures { Gives engine.new result (on_rows name.now (write_outcome (changes_by_writing writing.entry)) (world_in engine.old)) }
{
    match open_table(alloc, engine, name) {
        Ok(def) => {
            let written = written(alloc, engine, &def, writing);
            after_rows(alloc, engine, def.name.as_slice(), written)
        }
        Err(Refused::Sql(code)) => Ok(Reply::Refused(code)),
        Err(Refused::Memory) => Err(Memory),
    }
}
