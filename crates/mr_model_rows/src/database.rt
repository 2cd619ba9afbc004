//! Tables, and what commits make of them.

ghost use Rattle.std.specs.Prelude.{◌≡◌, ◌++◌, ◌∷◌, [], IfOk, not, filter, if◌then◌else◌};
ghost use Rattle.std.specs.Option.{option_copied};
ghost use Rattle.mr_types.specs.declared.row.Schema.TheVariants as schema;
ghost use Rattle.mr_types.specs.Values.{same_bytes};
ghost use Rattle.mr_orders.specs.Orders.{IsAscending, AreAscending};
ghost use Rattle.mr_model_rows.specs.Keyed.{table_after as table_behind, table_with, table_without, tables_without as tables_but};
ghost use Rattle.mr_spec.specs.KeyChecks.{is_named as has_name};
ghost use Rattle.mr_spec.specs.Rows.{table_name as name_of, rows_after as rows_behind};
ghost use Rattle.mr_spec.specs.Database.{is_table as has_table_name, table_of as table_in, changed as change_done, with_changes as changes_done, with_schema as schema_done, with_body as body_done, with_commits as commits_done, replay as replay_of, schema_table as schema_table_of, defines as defined_by};

use crate::copies::take_off;
use crate::rows::{copy_rows, rows_after};
use mr_base::{Blob, Memory};
use mr_schema::is_same_name;
use mr_spec::{RowList, Table, TableList};
use mr_types::{Change, Commit, CommitBody, IndexDef, IndexList, Schema, TableDef};
use std::alloc::Global;

/// Whether the table has this name, byte for byte.
pub fn is_table(name: &[u8], table: &Table) -> bool
    ensures { result ≡ has_table_name name.now table.now }
{
    table.def.name.as_slice() == name
}

/// The table of this name.
pub fn table_of<'a>(name: &[u8], tables: &'a [Table]) -> Option<&'a Table>
    ensures { option_copied result ≡ table_in name.now tables.now }
{
    for table in tables {
        if is_table(name, table) {
            return Some(table);
        }
    }
    None
}

/// The table that a change is of.
pub fn table_name(change: &Change) -> &Blob
    ensures { result.now ≡ name_of change.now }
{
    match change {
        Change::Insert { table, .. } => table,
        Change::Update { table, .. } => table,
        Change::Delete { table, .. } => table,
    }
}

/// A copy of this table.
pub fn copy_table(alloc: Global, table: &Table) -> Result<Table, Memory>
    ensures { IfOk result (λ t. t ≡ table.now) }
{
    Ok(Table {
        def: table.def.copy(alloc)?,
        rows: copy_rows(alloc, table.rows.as_slice())?,
    })
}

/// A table after a change of a row, of this table or another.
fn table_after(alloc: Global, table: Table, change: &Change) -> Result<Table, Memory>
    requires rising { IsAscending table.def table.rows }
    ensures { IfOk result (λ t. t ≡ table_behind change.now table) }
{
    if !is_table(table_name(change).as_slice(), &table) {
        return Ok(table);
    }
    let Table { def, rows } = table;
    let rows = rows_after(alloc, &def, rows, change)?;
    Ok(Table { def, rows })
}

/// The tables after a change of one row.
#[tactic(auto, using(crate::proofs::Moved::carried, crate::proofs::Ascent::front_ascends, crate::proofs::Ascent::last_ascends))]
fn changed(alloc: Global, tables: TableList, change: &Change) -> Result<TableList, Memory>
    requires rising { AreAscending tables }
    ensures { IfOk result (λ all. all ≡ change_done tables change.now) }
{
    let mut before = tables;
    let mut after = TableList::new(alloc);
    'tables: while let Some(table) = before.pop() {
        after.push(table_after(alloc, table, change)?)?;
    }
    take_off(alloc, &mut after, 0)
}

/// A copy of these tables.
pub fn copy_tables(alloc: Global, tables: &[Table]) -> Result<TableList, Memory>
    ensures { IfOk result (λ all. all ≡ tables.now) }
{
    let mut all = TableList::new(alloc);
    for table in tables {
        all.push(copy_table(alloc, table)?)?;
    }
    Ok(all)
}

/// The tables after these changes.
#[tactic(auto, using(crate::proofs::Ascent::changed_ascends))]
pub fn with_changes(
    alloc: Global,
    tables: TableList,
    changes: &[Change],
) -> Result<TableList, Memory>
    requires rising { AreAscending tables }
    ensures { IfOk result (λ all. all ≡ changes_done tables changes.now) }
{
    let mut all = tables;
    for change in changes {
        all = changed(alloc, all, change)?;
    }
    Ok(all)
}

// ---- changes of the schema

fn with_table(alloc: Global, tables: TableList, def: &TableDef) -> Result<TableList, Memory>
    ensures { IfOk result (λ all. all ≡ tables ++ record { def = def.now; rows = [] } ∷ []) }
{
    let mut all = tables;
    all.push(Table {
        def: def.copy(alloc)?,
        rows: RowList::new(alloc),
    })?;
    Ok(all)
}

#[tactic(auto, using(crate::proofs::Moved::skipped_table, crate::proofs::Moved::passed_table))]
fn without_table(tables: TableList, name: &[u8]) -> TableList
    ensures { result ≡ tables_but name.now tables }
{
    let mut kept = tables;
    let mut at = 0;
    while at < kept.len() {
        if is_table(name, &kept.as_slice()[at]) {
            let _gone = kept.remove(at);
        } else {
            at += 1;
        }
    }
    kept
}

/// The table with a key more, where it has the name.
fn and_key(alloc: Global, table: Table, name: &[u8], key: &IndexDef) -> Result<Table, Memory>
    ensures { IfOk result (λ t. t ≡ (if has_table_name name.now table then table_with table key.now else table)) }
{
    if !is_table(name, &table) {
        return Ok(table);
    }
    let Table { def, rows } = table;
    Ok(Table {
        def: def.with_key(alloc, key)?,
        rows,
    })
}

#[tactic(auto, using(crate::proofs::Moved::carried))]
fn with_index(
    alloc: Global,
    tables: TableList,
    name: &[u8],
    key: &IndexDef,
) -> Result<TableList, Memory>
    ensures { IfOk result (λ all. all ≡ schema_done tables (schema.CreateIndex name.now key.now)) }
{
    let mut before = tables;
    let mut after = TableList::new(alloc);
    'tables: while let Some(table) = before.pop() {
        after.push(and_key(alloc, table, name, key)?)?;
    }
    take_off(alloc, &mut after, 0)
}

fn other_keys(alloc: Global, keys: &[IndexDef], name: &[u8]) -> Result<IndexList, Memory>
    ensures { IfOk result (λ all. all ≡ filter (λ k. not (has_name name.now k)) keys.now) }
{
    let mut all = IndexList::new(alloc);
    for key in keys {
        if !is_same_name(key.name.as_slice(), name) {
            all.push(key.copy(alloc)?)?;
        }
    }
    Ok(all)
}

/// The table without the keys of a name, where it has that of the table.
fn but_key(alloc: Global, table: Table, name: &[u8], key: &[u8]) -> Result<Table, Memory>
    ensures { IfOk result (λ t. t ≡ (if has_table_name name.now table then table_without table key.now else table)) }
{
    if !is_table(name, &table) {
        return Ok(table);
    }
    let Table { def, rows } = table;
    let secondary = other_keys(alloc, def.secondary.as_slice(), key)?;
    let mut def = def;
    def.secondary = secondary;
    Ok(Table { def, rows })
}

#[tactic(auto, using(crate::proofs::Moved::carried))]
fn without_index(
    alloc: Global,
    tables: TableList,
    name: &[u8],
    key: &[u8],
) -> Result<TableList, Memory>
    ensures { IfOk result (λ all. all ≡ schema_done tables (schema.DropIndex name.now key.now)) }
{
    let mut before = tables;
    let mut after = TableList::new(alloc);
    'tables: while let Some(table) = before.pop() {
        after.push(but_key(alloc, table, name, key)?)?;
    }
    take_off(alloc, &mut after, 0)
}

fn with_schema(alloc: Global, tables: TableList, change: &Schema) -> Result<TableList, Memory>
    ensures { IfOk result (λ all. all ≡ schema_done tables change.now) }
{
    match change {
        Schema::CreateTable(def) => with_table(alloc, tables, def),
        Schema::DropTable(name) => Ok(without_table(tables, name.as_slice())),
        Schema::CreateIndex(name, key) => with_index(alloc, tables, name.as_slice(), key),
        Schema::DropIndex(name, key) => {
            without_index(alloc, tables, name.as_slice(), key.as_slice())
        }
    }
}

// ---- commits

/// The tables after what a commit has changed.
pub fn with_body(alloc: Global, tables: TableList, body: &CommitBody) -> Result<TableList, Memory>
    requires rising { AreAscending tables }
    ensures { IfOk result (λ all. all ≡ body_done tables body.now) }
{
    match body {
        CommitBody::Rows(changes) => with_changes(alloc, tables, changes.as_slice()),
        CommitBody::Schema(change) => with_schema(alloc, tables, change),
    }
}

/// The tables that these commits make of none.
#[tactic(auto, using(crate::proofs::Ascent::body_ascends))]
pub fn replay(alloc: Global, commits: &[Commit]) -> Result<TableList, Memory>
    ensures { IfOk result (λ all. all ≡ replay_of commits.now) }
{
    let mut all = TableList::new(alloc);
    for commit in commits {
        all = with_body(alloc, all, &commit.body)?;
    }
    Ok(all)
}

/// Whether a change of the schema is of this table.
fn changes_table(change: &Schema, name: &[u8]) -> bool
    ensures { result ≡ same_bytes (schema_table_of change.now) name.now }
{
    match change {
        Schema::CreateTable(def) => def.name.as_slice() == name,
        Schema::DropTable(table) => table.as_slice() == name,
        Schema::CreateIndex(table, _) => table.as_slice() == name,
        Schema::DropIndex(table, _) => table.as_slice() == name,
    }
}

/// Whether a commit makes or changes the definition of the table.
pub fn defines(name: &[u8], commit: &Commit) -> bool
    ensures { result ≡ defined_by name.now commit.now }
{
    match &commit.body {
        CommitBody::Rows(_) => false,
        CommitBody::Schema(change) => changes_table(change, name),
    }
}
