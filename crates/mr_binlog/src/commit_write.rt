//! A commit written as the bytes of a binary log's body.
//!
//!     commit   moment u64, kind u8, and:
//!     kind 0   rows: count u32, at least 1; changes
//!     kind 1   create table: the definition
//!     kind 2   drop table: its name
//!     kind 3   create index: the table's name, the key
//!     kind 4   drop index: the table's name, the key's name
//!     change   u8: 1 insert, 2 update, 3 delete; the table's name; the new row, the old and the
//!              new one, or the old one
//!
//! Row (1, 2) inserted into table `t` at moment 7:
//!
//!     00 00 00 00 00 00 00 07 00   00 00 00 01   01 01 't'
//!     00 02   01 00 00 00 00 00 00 00 01   01 00 00 00 00 00 00 00 02

ghost use Rattle.std.specs.Prelude.{◌≡◌, ◌<◌, ◌^◌, ◌++◌, IfOk, OnOk, Ok};
ghost use Rattle.std.specs.List.{AllByRecursion};
ghost use Rattle.byteorder.specs.Endian.{big_bytes};
ghost use Rattle.mr_fields.specs.Fields.{name_bytes, listed_bytes};
ghost use Rattle.mr_fields.specs.Fitting.{GivenFits, RowHasPlace};
ghost use Rattle.mr_spec.specs.RowForm.{row_bytes};
ghost use Rattle.mr_spec.specs.Rows.{rows_of};
ghost use Rattle.mr_spec.specs.Database.{changes_in};
ghost use Rattle.mr_schema.specs.DefinitionForm.{key_bytes};
ghost use Rattle.mr_schema.specs.DefinitionFitting.{KeyHasPlace};
ghost use Rattle.mr_binlog.specs.CommitForm.{change_bytes, schema_bytes, body_bytes, commit_bytes, reads_commit};
ghost use Rattle.mr_binlog.specs.CommitFitting.{CommitFits, HasSmallNumbers, NumbersFit, NameHasPlace, ChangeHasPlace, SchemaHasPlace, BodyHasPlace};

use mr_base::{Blob, Memory};
use mr_fields::{write_byte, write_name, write_row, write_u32, write_u64};
use mr_schema::{write_definition, write_key};
use mr_types::{Change, Commit, CommitBody, IndexDef, Row, Schema};
use std::alloc::Global;

/// A number that may be missing is of 64 bits.
fn given_fits(number: &Option<u64>)
    ensures { GivenFits number.now }
{
    if let Some(number) = number {
        let _value = *number;
    }
}

/// So are a row's hidden number and its stamp.
fn has_small_numbers(row: &Row)
    ensures { HasSmallNumbers row.now }
{
    given_fits(&row.hidden);
    given_fits(&row.stamp);
}

fn write_named_row(out: &mut Vec<u8>, table: &Blob, row: &Row) -> Result<(), Memory>
    ensures written { OnOk result (out.new.items ≡ out.old.items ++ (name_bytes table.now ++ row_bytes row.now)) }
    ensures place { OnOk result (NameHasPlace table.now × RowHasPlace row.now) }
    ensures numbers { OnOk result (HasSmallNumbers row.now) }
{
    has_small_numbers(row);
    write_name(out, table.as_slice())?;
    write_row(out, row)
}

fn write_change(out: &mut Vec<u8>, change: &Change) -> Result<(), Memory>
    ensures written { OnOk result (out.new.items ≡ out.old.items ++ change_bytes change.now) }
    ensures place { OnOk result (ChangeHasPlace change.now) }
    ensures numbers { OnOk result (AllByRecursion HasSmallNumbers (rows_of change.now)) }
{
    match change {
        Change::Insert { table, new } => {
            write_byte(out, 1)?;
            write_named_row(out, table, new)
        }
        Change::Update { table, old, new } => {
            write_byte(out, 2)?;
            write_named_row(out, table, old)?;
            has_small_numbers(new);
            write_row(out, new)
        }
        Change::Delete { table, old } => {
            write_byte(out, 3)?;
            write_named_row(out, table, old)
        }
    }
}

fn write_each_change(out: &mut Vec<u8>, changes: &[Change]) -> Result<(), Memory>
    ensures written { OnOk result (out.new.items ≡ out.old.items ++ listed_bytes change_bytes changes.now) }
    ensures place { OnOk result (AllByRecursion ChangeHasPlace changes.now) }
    ensures numbers { OnOk result (AllByRecursion (λ change. AllByRecursion HasSmallNumbers (rows_of change)) changes.now) }
{
    'writing: for change in changes {
        write_change(out, change)?;
    }
    Ok(())
}

/// How many changes there are, as a number of four bytes.
fn write_change_count(out: &mut Vec<u8>, count: usize) -> Result<(), Memory>
    ensures written { OnOk result (out.new.items ≡ out.old.items ++ big_bytes 4 count) }
    ensures place { OnOk result (count < 2 ^ 32) }
{
    match u32::try_from(count) {
        Ok(number) => write_u32(out, number),
        Err(_) => Err(Memory),
    }
}

fn write_create_index(out: &mut Vec<u8>, table: &Blob, key: &IndexDef) -> Result<(), Memory>
    ensures written { OnOk result (out.new.items ≡ out.old.items ++ (name_bytes table.now ++ key_bytes key.now)) }
    ensures place { OnOk result (NameHasPlace table.now × KeyHasPlace key.now) }
{
    write_name(out, table.as_slice())?;
    write_key(out, key)
}

fn write_drop_index(out: &mut Vec<u8>, table: &Blob, key: &Blob) -> Result<(), Memory>
    ensures written { OnOk result (out.new.items ≡ out.old.items ++ (name_bytes table.now ++ name_bytes key.now)) }
    ensures place { OnOk result (NameHasPlace table.now × NameHasPlace key.now) }
{
    write_name(out, table.as_slice())?;
    write_name(out, key.as_slice())
}

fn write_schema(out: &mut Vec<u8>, change: &Schema) -> Result<(), Memory>
    ensures written { OnOk result (out.new.items ≡ out.old.items ++ schema_bytes change.now) }
    ensures place { OnOk result (SchemaHasPlace change.now) }
{
    match change {
        Schema::CreateTable(def) => {
            write_byte(out, 1)?;
            write_definition(out, def)
        }
        Schema::DropTable(table) => {
            write_byte(out, 2)?;
            write_name(out, table.as_slice())
        }
        Schema::CreateIndex(table, key) => {
            write_byte(out, 3)?;
            write_create_index(out, table, key)
        }
        Schema::DropIndex(table, key) => {
            write_byte(out, 4)?;
            write_drop_index(out, table, key)
        }
    }
}

fn write_body(out: &mut Vec<u8>, body: &CommitBody) -> Result<(), Memory>
    ensures written { OnOk result (out.new.items ≡ out.old.items ++ body_bytes body.now) }
    ensures place { OnOk result (BodyHasPlace body.now) }
    ensures numbers { OnOk result (AllByRecursion (λ change. AllByRecursion HasSmallNumbers (rows_of change)) (changes_in body.now)) }
{
    match body {
        CommitBody::Rows(changes) => {
            write_byte(out, 0)?;
            write_change_count(out, changes.len())?;
            write_each_change(out, changes.as_slice())
        }
        CommitBody::Schema(change) => write_schema(out, change),
    }
}

/// The bytes of a commit. Takes memory. A length that has no place in its field, and a number that
/// isn't from -2^63 to 2^64 - 1, are answered as want of memory.
pub fn write_commit(alloc: Global, commit: &Commit) -> Result<Blob, Memory>
    ensures written { IfOk result (λ b. b ≡ commit_bytes commit.now) }
    ensures place { OnOk result (BodyHasPlace commit.now.body) }
    ensures reads_back { CommitFits commit.now → IfOk result (λ b. reads_commit b ≡ Ok commit.now) }
    ensures numbers { OnOk result (NumbersFit commit.now) }
{
    let mut out = Vec::new(alloc);
    write_u64(&mut out, commit.moment)?;
    write_body(&mut out, &commit.body)?;
    Ok(Blob::from_vec(out))
}
