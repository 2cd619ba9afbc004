//! What one statement does to the engine, and its reply.

ghost use Rattle.std.specs.Prelude.{◌≡◌, OnOk};
ghost use Rattle.mr_types.specs.declared.statement.Statement.TheVariants as kinds;
ghost use Rattle.mr_spec.specs.Step.{commits_first as first_commits, outcome_of as outcome_in_world, begun, step as step_in};
ghost use Rattle.mr_model_engine.specs.Acting.{Gives, outcome_in};
ghost use Rattle.mr_schema.specs.Few.{FewColumns};
ghost use Rattle.mr_model_engine.specs.Worlds.{world_in};

use crate::cutting::Read;
use mr_base::Memory;
use mr_model_definitions::{
    begin_index, cancel_index, create_index, create_table, drop_index, drop_table, finish_index,
    lock_tables,
};
use mr_model_engine::Engine;
use mr_model_statements::{
    Writing, answered, begin, disconnect, release, roll_back_to, savepoint, select, session, write,
};
use mr_types::{Reply, Statement};
use std::alloc::Global;

/// Whether it commits an open transaction first, also where it is then refused.
fn commits_first(statement: &Statement) -> bool
    ensures { result ≡ first_commits statement.now }
{
    match statement {
        Statement::CreateTable { .. }
        | Statement::DropTable { .. }
        | Statement::CreateIndex { .. }
        | Statement::DropIndex(_)
        | Statement::BeginIndex { .. }
        | Statement::FinishIndex(_)
        | Statement::CancelIndex(_)
        | Statement::Lock(_)
        | Statement::Begin { .. } => true,
        _ => false,
    }
}

/// COMMIT.
fn commit(alloc: Global, engine: &mut Engine) -> Result<Reply, Memory>
    ensures { Gives engine.new result (outcome_in_world kinds.Commit (world_in engine.old)) }
{
    engine.commit_txn(alloc)?;
    Ok(Reply::Ok(0))
}

/// ROLLBACK.
fn roll_back(engine: &mut Engine) -> Reply
    ensures { outcome_in engine.new result ≡ outcome_in_world kinds.Rollback (world_in engine.old) }
{
    engine.roll_back();
    Reply::Ok(0)
}

/// A statement in an engine that is at its moment, and whose open transaction it has committed where
/// it does so.
fn outcome_of(alloc: Global, engine: &mut Engine, statement: &Statement) -> Result<Reply, Memory>
    requires few { FewColumns engine.old.commits }
    ensures { Gives engine.new result (outcome_in_world statement.now (world_in engine.old)) }
{
    match statement {
        Statement::CreateTable {
            text,
            if_not_exists,
            engine: word,
        } => answered(create_table(alloc, engine, text, *if_not_exists, word)),
        Statement::DropTable { table, if_exists } => {
            answered(drop_table(alloc, engine, table, *if_exists))
        }
        Statement::CreateIndex { table, key } => {
            answered(create_index(alloc, engine, table.as_slice(), key))
        }
        Statement::DropIndex(name) => answered(drop_index(alloc, engine, name)),
        Statement::BeginIndex { table, key } => {
            answered(begin_index(alloc, engine, table.as_slice(), key))
        }
        Statement::FinishIndex(name) => answered(finish_index(alloc, engine, name)),
        Statement::CancelIndex(name) => answered(cancel_index(alloc, engine, name)),
        Statement::Insert(statement) => write(
            alloc,
            engine,
            statement.table.as_slice(),
            Writing::Insert(statement),
        ),
        Statement::Replace(statement) => write(
            alloc,
            engine,
            statement.table.as_slice(),
            Writing::Replace(statement),
        ),
        Statement::Update {
            table,
            set,
            condition,
        } => write(
            alloc,
            engine,
            table.as_slice(),
            Writing::Update(set.as_slice(), condition),
        ),
        Statement::Delete { table, condition } => write(
            alloc,
            engine,
            table.as_slice(),
            Writing::Delete(condition),
        ),
        Statement::Select(statement) => select(alloc, engine, statement),
        Statement::Begin { snapshot } => Ok(begin(alloc, engine, *snapshot)),
        Statement::Commit => commit(alloc, engine),
        Statement::Rollback => Ok(roll_back(engine)),
        Statement::RollbackTo(name) => answered(roll_back_to(alloc, engine, name.as_slice())),
        Statement::Savepoint(name) => savepoint(alloc, engine, name.as_slice()),
        Statement::Release(name) => answered(release(alloc, engine, name.as_slice())),
        Statement::Lock(names) => answered(lock_tables(alloc, engine, names)),
        Statement::Unlock => Ok(Reply::Ok(0)),
        Statement::Session(name) => answered(session(alloc, engine, name.as_slice())),
        Statement::Disconnect => disconnect(alloc, engine),
        Statement::Work(_) => Ok(Reply::Ok(0)),
    }
}

/// With an open transaction committed, where the statement does so.
fn begin_statement(alloc: Global, engine: &mut Engine, statement: &Statement) -> Result<(), Memory>
    ensures { OnOk result (world_in engine.new ≡ begun statement.now (world_in engine.old)) }
{
    if commits_first(statement) {
        engine.commit_txn(alloc)?;
    }
    Ok(())
}

/// One statement, or the refusal of a text that is none, where the clock gives this value.
pub fn step(
    alloc: Global,
    engine: &mut Engine,
    statement: &Read,
    clock: u64,
) -> Result<Reply, Memory>
    requires few { FewColumns engine.old.commits }
    ensures step { Gives engine.new result (step_in (world_in engine.old) statement.now clock) }
    ensures few { OnOk result (FewColumns engine.new.commits) }
{
    engine.moment = engine.moment.max(clock);
    match statement {
        Err(code) => Ok(Reply::Refused(*code)),
        Ok(statement) => {
            begin_statement(alloc, engine, statement)?;
            outcome_of(alloc, engine, statement)
        }
    }
}
