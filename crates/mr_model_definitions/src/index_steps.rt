//! Statements on the indexes of a table. An open transaction of the session is committed before
//! them.

ghost use Rattle.std.specs.Prelude.{◌≡◌, ◌<◌, remove, find, length, OnOk, IfOk};
ghost use Rattle.std.specs.List.{list_any};
ghost use Rattle.mr_types.specs.Refusals.{some_or};
ghost use Rattle.mr_types.specs.Values.{Answers};
ghost use Rattle.mr_spec.specs.KeyChecks.{is_named as has_name};
ghost use Rattle.mr_spec.specs.Rows.{same_unique as same_in, visible as seen};
ghost use Rattle.mr_spec.specs.SchemaSteps.{builds_other as other_is_built, free_for_key as key_is_free, building_names as names_built, with_begun, begin_index as index_begun, building_key as key_built, has_duplicate as duplicate_in, published, finish_index as index_finished, cancel_index as index_cancelled, create_index as index_made, drop_index as index_dropped};
ghost use Rattle.mr_model_engine.specs.Worlds.{world_in};
ghost use Rattle.mr_model_engine.specs.Acting.{Acts, Gives, Turns};
ghost use Rattle.mr_schema.specs.Few.{FewColumns};

use crate::schema_steps::commit_schema;
use mr_base::{Blob, Memory};
use mr_model_engine::{Engine, building_of, table_in, used_elsewhere};
use mr_model_rows::{same_unique, visible};
use mr_schema::{check_key_beside, is_same_name};
use mr_spec::Table;
use mr_types::{IndexDef, KeyName, KeyText, NameList, Refused, Reply, Row, Schema, TableDef};
use std::alloc::Global;

fn is_named(name: &[u8], key: &IndexDef) -> bool
    ensures { result ≡ has_name name.now key.now }
{
    is_same_name(key.name.as_slice(), name)
}

/// Whether the table has a building index of another name.
fn builds_other(engine: &Engine, table: &[u8], key: &[u8]) -> bool
    ensures { result ≡ other_is_built (world_in engine.now) table.now key.now }
{
    match building_of(engine, table) {
        None => false,
        Some(built) => !is_named(key, built),
    }
}

/// 1205 where the table is used elsewhere or has a building index of another name.
fn free_for_key(engine: &Engine, table: &[u8], key: &[u8]) -> Result<(), Refused>
    ensures { Answers result (key_is_free (world_in engine.now) table.now key.now) }
{
    if used_elsewhere(engine, table) || builds_other(engine, table, key) {
        return Err(Refused::Sql(1205));
    }
    Ok(())
}

/// The name of the table's building index, which is taken too.
fn building_names(alloc: Global, engine: &Engine, table: &[u8]) -> Result<NameList, Memory>
    ensures { IfOk result (λ names. names ≡ names_built (world_in engine.now) table.now) }
{
    let mut names = NameList::new(alloc);
    if let Some(key) = building_of(engine, table) {
        names.push(key.name.copy(alloc)?)?;
    }
    Ok(names)
}

/// The table has an index that is building: 1146, the checks of the key, 1205. What it was before
/// is the engine without its first entry of `building`.
fn begin(alloc: Global, engine: &mut Engine, table: &[u8], text: &KeyText) -> Result<(), Refused>
    requires few { FewColumns engine.old.commits }
    ensures begun { Turns engine.old engine.new result (with_begun (world_in engine.old) table.now text.now) }
    ensures entry { OnOk result (0 < length engine.new.building) }
    ensures back { OnOk result (record engine.new { building = remove engine.new.building 0 } ≡ engine.old) }
{
    let there = table_in(alloc, engine, table)?;
    let names = building_names(alloc, engine, table)?;
    let key = check_key_beside(alloc, &there.def, names.as_slice(), text)?;
    free_for_key(engine, table, text.name.as_slice())?;
    engine.set_building(alloc, table, Some(key))?;
    Ok(())
}

/// BEGIN INDEX commits nothing.
pub fn begin_index(
    alloc: Global,
    engine: &mut Engine,
    table: &[u8],
    text: &KeyText,
) -> Result<Reply, Refused>
    requires few { FewColumns engine.old.commits }
    ensures { Acts engine.old engine.new result (index_begun (world_in engine.old) table.now text.now) }
{
    begin(alloc, engine, table, text)?;
    Ok(Reply::Ok(0))
}

/// The building index, where it has this name, else 1176.
fn building_key(alloc: Global, engine: &Engine, name: &KeyName) -> Result<IndexDef, Refused>
    ensures { Answers result (some_or 1176 (key_built (world_in engine.now) name.now)) }
{
    match building_of(engine, name.table.as_slice()) {
        None => Err(Refused::Sql(1176)),
        Some(key) => {
            if !is_named(name.key.as_slice(), key) {
                return Err(Refused::Sql(1176));
            }
            Ok(key.copy(alloc)?)
        }
    }
}

fn collides(def: &TableDef, key: &IndexDef, row: &Row, others: &[Row]) -> bool
    ensures { result ≡ list_any (λ s. same_in def.now row.now s key.now) others.now }
{
    others.iter().any(|other| same_unique(def, row, other, key))
}

/// Whether two rows have the same values, without NULL, in a unique key.
fn has_duplicate(def: &TableDef, key: &IndexDef, rows: &[Row]) -> bool
    ensures { result ≡ duplicate_in def.now key.now rows.now }
{
    for (i, row) in rows.iter().enumerate() {
        if collides(def, key, row, &rows[i + 1..]) {
            return true;
        }
    }
    false
}

fn has_visible_duplicate(
    alloc: Global,
    table: &Table,
    key: &IndexDef,
    moment: u64,
) -> Result<bool, Memory>
    ensures { IfOk result (λ b. b ≡ duplicate_in table.now.def key.now (seen table.now.def moment table.now.rows)) }
{
    let rows = visible(alloc, &table.def, moment, table.rows.as_slice())?;
    Ok(has_duplicate(&table.def, key, rows.as_slice()))
}

/// The key is committed, or 1062 where two visible rows have the same values in it.
fn publish(
    alloc: Global,
    engine: &mut Engine,
    table: &Table,
    key: IndexDef,
) -> Result<Reply, Memory>
    ensures { Gives engine.new result (published (world_in engine.old) table.now key) }
{
    if has_visible_duplicate(alloc, table, &key, engine.moment)? {
        return Ok(Reply::Refused(1062));
    }
    commit_schema(
        alloc,
        engine,
        Schema::CreateIndex(table.def.name.copy(alloc)?, key),
    )?;
    Ok(Reply::Ok(0))
}

/// FINISH INDEX: 1146, 1176, 1205, 1062. The building index is gone, also behind 1062.
pub fn finish_index(alloc: Global, engine: &mut Engine, name: &KeyName) -> Result<Reply, Refused>
    ensures { Acts engine.old engine.new result (index_finished (world_in engine.old) name.now) }
{
    let table = table_in(alloc, engine, name.table.as_slice())?;
    let key = building_key(alloc, engine, name)?;
    free_for_key(engine, name.table.as_slice(), name.key.as_slice())?;
    engine.set_building(alloc, name.table.as_slice(), None)?;
    Ok(publish(alloc, engine, &table, key)?)
}

/// CANCEL INDEX: 1146, 1176.
pub fn cancel_index(alloc: Global, engine: &mut Engine, name: &KeyName) -> Result<Reply, Refused>
    ensures { Acts engine.old engine.new result (index_cancelled (world_in engine.old) name.now) }
{
    table_in(alloc, engine, name.table.as_slice())?;
    building_key(alloc, engine, name)?;
    engine.set_building(alloc, name.table.as_slice(), None)?;
    Ok(Reply::Ok(0))
}

fn key_name(alloc: Global, table: &[u8], key: &[u8]) -> Result<KeyName, Memory>
    ensures { IfOk result (λ n. n ≡ record { table = table.now; key = key.now }) }
{
    Ok(KeyName {
        table: Blob::from_slice(alloc, table)?,
        key: Blob::from_slice(alloc, key)?,
    })
}

/// CREATE INDEX is BEGIN INDEX and then FINISH INDEX, with one reply. Should the second refuse, what
/// the first began is taken back.
pub fn create_index(
    alloc: Global,
    engine: &mut Engine,
    table: &[u8],
    text: &KeyText,
) -> Result<Reply, Refused>
    requires few { FewColumns engine.old.commits }
    ensures { Acts engine.old engine.new result (index_made (world_in engine.old) table.now text.now) }
{
    let name = key_name(alloc, table, text.name.as_slice())?;
    begin(alloc, engine, table, text)?;
    match finish_index(alloc, engine, &name) {
        Ok(reply) => Ok(reply),
        Err(Refused::Memory) => Err(Refused::Memory),
        Err(Refused::Sql(code)) => {
            engine.building.remove(0);
            Err(Refused::Sql(code))
        }
    }
}

/// The secondary key of this name, else 1091.
fn secondary_key(alloc: Global, def: &TableDef, name: &[u8]) -> Result<IndexDef, Refused>
    ensures { Answers result (some_or 1091 (find (has_name name.now) def.now.secondary)) }
{
    for key in def.secondary.as_slice() {
        if is_named(name, key) {
            return Ok(key.copy(alloc)?);
        }
    }
    Err(Refused::Sql(1091))
}

/// DROP INDEX: 1146, 1091, 1205. The commit has the name that the definition has.
pub fn drop_index(alloc: Global, engine: &mut Engine, name: &KeyName) -> Result<Reply, Refused>
    ensures { Acts engine.old engine.new result (index_dropped (world_in engine.old) name.now) }
{
    let table = table_in(alloc, engine, name.table.as_slice())?;
    let key = secondary_key(alloc, &table.def, name.key.as_slice())?;
    free_for_key(engine, name.table.as_slice(), name.key.as_slice())?;
    commit_schema(
        alloc,
        engine,
        Schema::DropIndex(table.def.name.copy(alloc)?, key.name),
    )?;
    Ok(Reply::Ok(0))
}
