//! What statements look at in the engine: committed tables, building indexes and hidden numbers.

ghost use Rattle.std.specs.Prelude.{◌≡◌, ◌≤◌, length, IfOk};
ghost use Rattle.std.specs.List.{list_any};
ghost use Rattle.std.specs.Option.{option_copied};
ghost use Rattle.mr_types.specs.Values.{Answers, same_bytes};
ghost use Rattle.mr_spec.specs.Database.{table_of as table_found, replay as replay_of};
ghost use Rattle.mr_spec.specs.World.{has_used as used_by};
ghost use Rattle.mr_spec.specs.SchemaSteps.{table_in as table_there, used_elsewhere as used_by_others};
ghost use Rattle.mr_model_engine.specs.Worlds.{world_in};
ghost use Rattle.mr_schema.specs.Few.{FewColumns};

use crate::engine::Engine;
use crate::numbers::number_among;
use mr_base::{Blob, Memory};
use mr_model_rows::{copy_table, table_of};
use mr_spec::{Session, Table};
use mr_types::{IndexDef, Refused};
use std::alloc::Global;

/// The committed table of this name.
pub fn committed_table<'a>(engine: &'a Engine, name: &[u8]) -> Result<Option<&'a Table>, Memory>
    ensures { IfOk result (λ t. option_copied t ≡ table_found name.now (replay_of engine.now.commits)) }
{
    Ok(table_of(name, engine.tables()?))
}

/// The committed table of this name, else 1146.
#[tactic(auto, using(crate::proofs::FewTables::few_found))]
pub fn table_in(alloc: Global, engine: &Engine, name: &[u8]) -> Result<Table, Refused>
    ensures answers { Answers result (table_there (world_in engine.now) name.now) }
    ensures few { FewColumns engine.now.commits → IfOk result (λ t. length t.def.columns ≤ 255) }
{
    match committed_table(engine, name)? {
        Some(table) => Ok(copy_table(alloc, table)?),
        None => Err(Refused::Sql(1146)),
    }
}

/// The table's building index.
pub fn building_of<'a>(engine: &'a Engine, table: &[u8]) -> Option<&'a IndexDef>
    ensures { option_copied result ≡ (world_in engine.now).building table.now }
{
    for entry in engine.building.as_slice() {
        if table == entry.table.as_slice() {
            return entry.key.as_ref();
        }
    }
    None
}

/// The table's next hidden number.
pub fn number_of(engine: &Engine, table: &[u8]) -> u64
    ensures { result ≡ (world_in engine.now).numbers table.now }
{
    number_among(engine.numbers.as_slice(), table)
}

fn is_among(name: &[u8], names: &[Blob]) -> bool
    ensures { result ≡ list_any (same_bytes name.now) names.now }
{
    names.iter().any(|other| name == other.as_slice())
}

/// Whether the session's transaction has used the table.
fn has_used(name: &[u8], session: &Session) -> bool
    ensures { result ≡ used_by name.now session.now }
{
    match &session.txn {
        None => false,
        Some(txn) => is_among(name, txn.used.as_slice()),
    }
}

/// Whether another open session has used the table.
pub fn used_elsewhere(engine: &Engine, name: &[u8]) -> bool
    ensures { result ≡ used_by_others (world_in engine.now) name.now }
{
    engine
        .others
        .as_slice()
        .iter()
        .any(|session| has_used(name, session))
}
