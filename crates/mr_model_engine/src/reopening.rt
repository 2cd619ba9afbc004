//! The engine of a folder that is opened: its commits, the moment of the last one, and the hidden
//! numbers that their inserts have used.

ghost use Rattle.std.specs.Prelude.{◌≡◌, ◌+◌, max, IfOk};
ghost use Rattle.std.specs.Option.{option_map_or};
ghost use Rattle.mr_model_engine.specs.Worlds.{numbers_in, world_in};
ghost use Rattle.mr_spec.specs.Replay.{last_moment as last_moment_of, numbers_by_change, numbers_by_changes, numbers_by_schema, numbers_by_body, numbers_after as numbers_behind, reopened as world_of};
ghost use Rattle.mr_spec.specs.World.{at_name};

use crate::engine::{Engine, fresh_session};
use crate::numbers::{Numbers, number_among, set_among};
use mr_base::Memory;
use mr_model_rows::replay;
use mr_types::{Change, Commit, CommitBody, Row, Schema};
use sqlite_items::Items;
use std::alloc::Global;

/// The hidden number of an inserted row is used. Behind the last number of 64 bits there is none:
/// want of memory stands for that.
fn used_by_row(alloc: Global, numbers: Numbers, table: &[u8], row: &Row) -> Result<Numbers, Memory>
    ensures { IfOk result (λ all. numbers_in all ≡ option_map_or (λ h. at_name table.now (max (numbers_in numbers table.now) (h + 1)) (numbers_in numbers)) row.now.hidden (numbers_in numbers)) }
{
    let Some(hidden) = row.hidden else {
        return Ok(numbers);
    };
    let Some(behind) = hidden.checked_add(1) else {
        return Err(Memory);
    };
    let next = number_among(numbers.as_slice(), table).max(behind);
    let mut numbers = numbers;
    set_among(alloc, &mut numbers, table, next)?;
    Ok(numbers)
}

fn used_by_change(alloc: Global, numbers: Numbers, change: &Change) -> Result<Numbers, Memory>
    ensures { IfOk result (λ all. numbers_in all ≡ numbers_by_change (numbers_in numbers) change.now) }
{
    match change {
        Change::Insert { table, new } => used_by_row(alloc, numbers, table.as_slice(), new),
        Change::Update { .. } => Ok(numbers),
        Change::Delete { .. } => Ok(numbers),
    }
}

fn used_by_changes(alloc: Global, numbers: Numbers, changes: &[Change]) -> Result<Numbers, Memory>
    ensures { IfOk result (λ all. numbers_in all ≡ numbers_by_changes (numbers_in numbers) changes.now) }
{
    let mut all = numbers;
    for change in changes {
        all = used_by_change(alloc, all, change)?;
    }
    Ok(all)
}

/// A dropped table's numbers are forgotten.
fn used_by_schema(alloc: Global, numbers: Numbers, change: &Schema) -> Result<Numbers, Memory>
    ensures { IfOk result (λ all. numbers_in all ≡ numbers_by_schema (numbers_in numbers) change.now) }
{
    match change {
        Schema::DropTable(name) => {
            let mut numbers = numbers;
            set_among(alloc, &mut numbers, name.as_slice(), 1)?;
            Ok(numbers)
        }
        Schema::CreateTable(_) => Ok(numbers),
        Schema::CreateIndex(_, _) => Ok(numbers),
        Schema::DropIndex(_, _) => Ok(numbers),
    }
}

fn used_by_body(alloc: Global, numbers: Numbers, body: &CommitBody) -> Result<Numbers, Memory>
    ensures { IfOk result (λ all. numbers_in all ≡ numbers_by_body (numbers_in numbers) body.now) }
{
    match body {
        CommitBody::Rows(changes) => used_by_changes(alloc, numbers, changes.as_slice()),
        CommitBody::Schema(change) => used_by_schema(alloc, numbers, change),
    }
}

/// The next hidden numbers behind these commits.
fn numbers_after(alloc: Global, commits: &[Commit]) -> Result<Numbers, Memory>
    ensures { IfOk result (λ all. numbers_in all ≡ numbers_behind (λ name. 1) commits.now) }
{
    let mut all = Numbers::new(alloc);
    for commit in commits {
        all = used_by_body(alloc, all, &commit.body)?;
    }
    Ok(all)
}

/// The moment of the last of these commits, 0 where there is none.
fn last_moment(commits: &[Commit]) -> u64
    ensures { result ≡ last_moment_of 0 commits.now }
{
    let mut moment = 0;
    for commit in commits {
        moment = commit.moment;
    }
    moment
}

impl Engine {
    /// The engine of a folder that has these commits: session `main` alone, outside a transaction,
    /// and no building index.
    pub fn reopened(alloc: Global, commits: Items<Commit>) -> Result<Engine, Memory>
        ensures world { IfOk result (λ e. world_in e ≡ world_of commits) }
        ensures commits { IfOk result (λ e. e.commits ≡ commits) }
    {
        let numbers = numbers_after(alloc, commits.as_slice())?;
        let moment = last_moment(commits.as_slice());
        let tables = replay(alloc, commits.as_slice())?;
        Ok(Engine {
            commits,
            tables: Some(tables),
            here: fresh_session(alloc, b"main")?,
            others: Items::new(alloc),
            building: Items::new(alloc),
            numbers,
            moment,
            view: None,
        })
    }
}
