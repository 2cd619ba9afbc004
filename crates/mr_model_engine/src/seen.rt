//! What the current session sees: commits, tables and rows, and the changes that it must not meet.

ghost use Rattle.std.specs.Prelude.{◌≡◌, [], min, take, length, IfOk, OnOk, IsTrue};
ghost use Rattle.std.specs.Option.{option_map_or};
ghost use Rattle.std.specs.List.{list_any};
ghost use Rattle.mr_spec.specs.Database.{defines as defined_by, changes_in as changes_of_body, changes_of as changes_of_commits, on_table as of_table, table_of as table_in};
ghost use Rattle.mr_spec.specs.World.{seen_by, changes_by, view_of, later_commits as later_of, is_stale as has_stale, held_changes as changes_held};
ghost use Rattle.mr_spec.specs.RowSteps.{rows_seen as rows_in_view};
ghost use Rattle.mr_model_engine.specs.Worlds.{keeps_view, world_in};

use crate::engine::Engine;
use mr_base::Memory;
use mr_model_rows::{
    copy_change, copy_changes, copy_rows, copy_tables, defines, replay, table_name, table_of,
    with_changes,
};
use mr_spec::{Session, Table, TableList, Txn};
use mr_types::{Change, ChangeList, Commit, CommitBody, Row};
use std::alloc::Global;
use std::cmp::min;

/// How many commits the transaction sees, of so many.
fn seen_count(txn: &Option<Txn>, all: usize) -> usize
    ensures { result ≡ min (seen_by txn.now all) all }
{
    match txn {
        None => all,
        Some(txn) => match txn.snapshot {
            None => all,
            Some(snapshot) => min(snapshot as usize, all),
        },
    }
}

/// Whether the current session sees all commits.
#[tactic(auto, using(crate::proofs::Current::all_seen))]
fn sees_all(engine: &Engine) -> bool
    ensures { IsTrue result → take (seen_by engine.now.here.txn (length engine.now.commits)) engine.now.commits ≡ engine.now.commits }
{
    let all = engine.commits.len();
    seen_count(&engine.here.txn, all) == all
}

/// The commits that the current session sees.
#[tactic(auto, using(std::proofs::lemmas::List::take_min))]
fn seen_commits(engine: &Engine) -> &[Commit]
    ensures { result.now ≡ take (seen_by engine.now.here.txn (length engine.now.commits)) engine.now.commits }
{
    let commits = engine.commits.as_slice();
    &commits[..seen_count(&engine.here.txn, commits.len())]
}

/// The commits behind them.
#[tactic(auto, using(std::proofs::lemmas::List::drop_min))]
fn later_commits(engine: &Engine) -> &[Commit]
    ensures { result.now ≡ later_of (world_in engine.now) }
{
    let commits = engine.commits.as_slice();
    &commits[seen_count(&engine.here.txn, commits.len())..]
}

fn some_define(name: &[u8], commits: &[Commit]) -> bool
    ensures { result ≡ list_any (defined_by name.now) commits.now }
{
    commits.iter().any(|commit| defines(name, commit))
}

/// Whether the definition was made or changed by a commit that the session doesn't see.
pub fn is_stale(name: &[u8], engine: &Engine) -> bool
    ensures { result ≡ has_stale name.now (world_in engine.now) }
{
    some_define(name, later_commits(engine))
}

/// A transaction's own changes.
pub fn changes_of_txn(txn: &Option<Txn>) -> &[Change]
    ensures { result.now ≡ changes_by txn.now }
{
    match txn {
        None => &[],
        Some(txn) => txn.changes.as_slice(),
    }
}

/// The tables as the current session sees them.
#[tactic(auto, using(crate::proofs::Current::replay_ascends))]
fn view(alloc: Global, engine: &Engine) -> Result<TableList, Memory>
    ensures { IfOk result (λ all. all ≡ view_of engine.now.commits engine.now.here.txn) }
{
    let changes = changes_of_txn(&engine.here.txn);
    let tables = if sees_all(engine) {
        copy_tables(alloc, engine.tables()?)?
    } else {
        replay(alloc, seen_commits(engine))?
    };
    with_changes(alloc, tables, changes)
}

/// The session's transaction, if there is one, keeps what it sees.
pub fn keep_view(alloc: Global, engine: &mut Engine) -> Result<(), Memory>
    ensures world { OnOk result (world_in engine.new ≡ world_in engine.old) }
    ensures kept { OnOk result (IsTrue (keeps_view engine.new)) }
{
    if engine.here.txn.is_some() && engine.view.is_none() {
        let tables = view(alloc, engine)?;
        engine.view = Some(tables);
    }
    Ok(())
}

/// The rows of the table of this name among these, none where there is none.
fn rows_among<'a>(name: &[u8], tables: &'a [Table]) -> &'a [Row]
    ensures { result.now ≡ option_map_or (λ t. t.rows) (table_in name.now tables.now) [] }
{
    match table_of(name, tables) {
        None => &[],
        Some(table) => table.rows.as_slice(),
    }
}

/// The rows of a table in the current session's view, expired ones too.
#[tactic(auto, using(crate::proofs::Current::all_of))]
pub fn rows_seen<'a>(engine: &'a Engine, name: &[u8]) -> Result<&'a [Row], Memory>
    requires kept { IsTrue (keeps_view engine.now) }
    ensures { IfOk result (λ rows. rows.now ≡ rows_in_view name.now (world_in engine.now)) }
{
    match &engine.here.txn {
        None => Ok(rows_among(name, engine.tables()?)),
        Some(_) => match &engine.view {
            Some(tables) => Ok(rows_among(name, tables.as_slice())),
            None => Err(Memory),
        },
    }
}

// ---- changes that others hold or have committed

fn held_changes(alloc: Global, sessions: &[Session]) -> Result<ChangeList, Memory>
    ensures { IfOk result (λ all. all ≡ changes_held sessions.now) }
{
    let mut all = ChangeList::new(alloc);
    for session in sessions {
        all.append(copy_changes(alloc, changes_of_txn(&session.txn))?)?;
    }
    Ok(all)
}

fn changes_in(body: &CommitBody) -> &[Change]
    ensures { result.now ≡ changes_of_body body.now }
{
    match body {
        CommitBody::Rows(changes) => changes.as_slice(),
        CommitBody::Schema(_) => &[],
    }
}

fn changes_of(alloc: Global, commits: &[Commit]) -> Result<ChangeList, Memory>
    ensures { IfOk result (λ all. all ≡ changes_of_commits commits.now) }
{
    let mut all = ChangeList::new(alloc);
    for commit in commits {
        all.append(copy_changes(alloc, changes_in(&commit.body))?)?;
    }
    Ok(all)
}

fn on_table(alloc: Global, name: &[u8], changes: &[Change]) -> Result<ChangeList, Memory>
    ensures { IfOk result (λ all. all ≡ of_table name.now changes.now) }
{
    let mut all = ChangeList::new(alloc);
    for change in changes {
        if table_name(change).as_slice() == name {
            all.push(copy_change(alloc, change)?)?;
        }
    }
    Ok(all)
}

/// The table's changes that the other sessions hold.
pub fn held_elsewhere(alloc: Global, engine: &Engine, name: &[u8]) -> Result<ChangeList, Memory>
    ensures { IfOk result (λ all. all ≡ of_table name.now (changes_held engine.now.others)) }
{
    let held = held_changes(alloc, engine.others.as_slice())?;
    on_table(alloc, name, held.as_slice())
}

/// The table's changes in the commits that the current session doesn't see.
pub fn changed_later(alloc: Global, engine: &Engine, name: &[u8]) -> Result<ChangeList, Memory>
    ensures { IfOk result (λ all. all ≡ of_table name.now (changes_of_commits (later_of (world_in engine.now)))) }
{
    let later = changes_of(alloc, later_commits(engine))?;
    on_table(alloc, name, later.as_slice())
}
