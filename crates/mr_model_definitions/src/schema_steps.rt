//! Statements on tables as a whole. An open transaction of the session is committed before them.

ghost use Rattle.std.specs.Prelude.{◌≡◌, ◌∷◌, [], not, codes, false, OnOk};
ghost use Rattle.std.specs.Option.{option_map_or};
ghost use Rattle.mr_types.specs.Values.{Answers};
ghost use Rattle.mr_spec.specs.SchemaSteps.{with_schema_change, is_engine as is_named_engine, created, create_table as table_made, dropped, drop_table as table_dropped, lock_tables as tables_locked};
ghost use Rattle.mr_model_engine.specs.Worlds.{world_in};
ghost use Rattle.mr_model_engine.specs.Acting.{Acts};
ghost use Rattle.mr_model_definitions.specs.Locking.{are_there};

use mr_base::{Blob, Memory};
use mr_model_engine::{Engine, building_of, committed_table, table_in, used_elsewhere};
use mr_schema::{check, is_same_name};
use mr_types::{CommitBody, NameList, Refused, Reply, Schema, TableText};
use std::alloc::Global;

/// A commit of a change of the schema.
pub fn commit_schema(alloc: Global, engine: &mut Engine, change: Schema) -> Result<(), Memory>
    ensures { OnOk result (world_in engine.new ≡ with_schema_change change (world_in engine.old)) }
{
    engine.commit(alloc, CommitBody::Schema(change))
}

// ---- CREATE TABLE and DROP TABLE

/// Whether ENGINE names another than ROCKSDB.
fn is_other_engine(word: &Option<Blob>) -> bool
    ensures { result ≡ option_map_or (λ e. not (is_named_engine e)) word.now false }
{
    match word {
        None => false,
        Some(word) => !is_same_name(word.as_slice(), b"ROCKSDB"),
    }
}

/// A table is made of this text, where the checks pass.
fn create(alloc: Global, engine: &mut Engine, text: &TableText) -> Result<Reply, Refused>
    ensures { Acts engine.old engine.new result (created (world_in engine.old) text.now) }
{
    let def = check(alloc, text)?;
    commit_schema(alloc, engine, Schema::CreateTable(def))?;
    Ok(Reply::Ok(0))
}

/// CREATE TABLE: 1286; 1050, or done with IF NOT EXISTS; the checks.
pub fn create_table(
    alloc: Global,
    engine: &mut Engine,
    text: &TableText,
    if_not_exists: bool,
    word: &Option<Blob>,
) -> Result<Reply, Refused>
    ensures { Acts engine.old engine.new result (table_made (world_in engine.old) text.now if_not_exists word.now) }
{
    if is_other_engine(word) {
        return Err(Refused::Sql(1286));
    }
    if committed_table(engine, text.name.as_slice())?.is_none() {
        create(alloc, engine, text)
    } else if if_not_exists {
        Ok(Reply::Ok(0))
    } else {
        Err(Refused::Sql(1050))
    }
}

/// A table that is there is dropped: 1205 where it is used elsewhere or has a building index.
fn drop_there(alloc: Global, engine: &mut Engine, table: &Blob) -> Result<Reply, Refused>
    ensures { Acts engine.old engine.new result (dropped (world_in engine.old) table.now) }
{
    if used_elsewhere(engine, table.as_slice()) || building_of(engine, table.as_slice()).is_some() {
        return Err(Refused::Sql(1205));
    }
    commit_schema(alloc, engine, Schema::DropTable(table.copy(alloc)?))?;
    engine.set_number(alloc, table.as_slice(), 1)?;
    Ok(Reply::Ok(0))
}

/// DROP TABLE: 1051, or done with IF EXISTS; 1205.
pub fn drop_table(
    alloc: Global,
    engine: &mut Engine,
    table: &Blob,
    if_exists: bool,
) -> Result<Reply, Refused>
    ensures { Acts engine.old engine.new result (table_dropped (world_in engine.old) table.now if_exists) }
{
    if committed_table(engine, table.as_slice())?.is_some() {
        drop_there(alloc, engine, table)
    } else if if_exists {
        Ok(Reply::Ok(0))
    } else {
        Err(Refused::Sql(1051))
    }
}

// ---- LOCK TABLES

/// 1146 where one of these tables isn't there.
fn all_there(alloc: Global, engine: &Engine, names: &[Blob]) -> Result<(), Refused>
    ensures { Answers result (are_there (world_in engine.now) names.now) }
{
    for name in names {
        table_in(alloc, engine, name.as_slice())?;
    }
    Ok(())
}

/// LOCK TABLES: 1146, else nothing.
pub fn lock_tables(alloc: Global, engine: &Engine, names: &NameList) -> Result<Reply, Refused>
    ensures { Acts engine.now engine.now result (tables_locked (world_in engine.now) names.now) }
{
    all_there(alloc, engine, names.as_slice())?;
    Ok(Reply::Ok(0))
}
