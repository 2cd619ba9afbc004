//! The commit that bytes are.

ghost use Rattle.std.specs.Prelude.{◌≡◌, IfOk, IfErr, Ok};
ghost use Rattle.mr_fields.specs.Fields.{listed_in, whole_in};
ghost use Rattle.mr_fields.specs.Given.{Given, Reads, GivesWhole, IsAnswer};
ghost use Rattle.mr_binlog.specs.CommitForm.{insert_in, update_in, delete_in, change_in, count_in, rows_in, create_table_in, drop_table_in, create_index_in, drop_index_in, body_in, commit_in, commit_bytes, reads_commit};

use mr_base::DefAnswer;
use mr_fields::{Offence, ReadStop, answer_of, end_of, name_at, row_at, u32_at, u64_at};
use mr_schema::{definition_at, key_at};
use mr_types::{Change, ChangeList, Commit, CommitBody, Schema};
use std::alloc::Global;

fn insert_at(alloc: Global, bytes: &[u8]) -> Result<(Change, &[u8]), ReadStop>
    ensures { Given result (insert_in bytes.now) }
{
    let (table, rest) = name_at(alloc, bytes)?;
    let (new, rest) = row_at(alloc, rest)?;
    Ok((Change::Insert { table, new }, rest))
}

fn update_at(alloc: Global, bytes: &[u8]) -> Result<(Change, &[u8]), ReadStop>
    ensures { Given result (update_in bytes.now) }
{
    let (table, rest) = name_at(alloc, bytes)?;
    let (old, rest) = row_at(alloc, rest)?;
    let (new, rest) = row_at(alloc, rest)?;
    Ok((Change::Update { table, old, new }, rest))
}

fn delete_at(alloc: Global, bytes: &[u8]) -> Result<(Change, &[u8]), ReadStop>
    ensures { Given result (delete_in bytes.now) }
{
    let (table, rest) = name_at(alloc, bytes)?;
    let (old, rest) = row_at(alloc, rest)?;
    Ok((Change::Delete { table, old }, rest))
}

fn change_at(alloc: Global, bytes: &[u8]) -> Result<(Change, &[u8]), ReadStop>
    ensures { Given result (change_in bytes.now) }
{
    match bytes {
        [1, rest @ ..] => insert_at(alloc, rest),
        [2, rest @ ..] => update_at(alloc, rest),
        [3, rest @ ..] => delete_at(alloc, rest),
        _ => Err(ReadStop::Left(bytes.len())),
    }
}

/// So many changes.
#[tactic(auto, using(mr_fields::proofs::Lists::stops))]
fn each_change_at(alloc: Global, count: u32, bytes: &[u8]) -> Result<(ChangeList, &[u8]), ReadStop>
    ensures { Given result (listed_in change_in count bytes.now) }
{
    let mut changes = ChangeList::new(alloc);
    let mut rest = bytes;
    'reading: for i in 0..count {
        let (change, behind) = change_at(alloc, rest)?;
        changes.push(change)?;
        rest = behind;
    }
    Ok((changes, rest))
}

/// A count of at least 1.
fn count_at(bytes: &[u8]) -> Result<(u32, &[u8]), Offence>
    ensures { Reads result (count_in bytes.now) }
{
    let (count, rest) = u32_at(bytes)?;
    if count == 0 {
        return Err(Offence(bytes.len()));
    }
    Ok((count, rest))
}

fn rows_at(alloc: Global, bytes: &[u8]) -> Result<(CommitBody, &[u8]), ReadStop>
    ensures { Given result (rows_in bytes.now) }
{
    let (count, rest) = count_at(bytes)?;
    let (changes, rest) = each_change_at(alloc, count, rest)?;
    Ok((CommitBody::Rows(changes), rest))
}

fn create_table_at(alloc: Global, bytes: &[u8]) -> Result<(CommitBody, &[u8]), ReadStop>
    ensures { Given result (create_table_in bytes.now) }
{
    let (def, rest) = definition_at(alloc, bytes)?;
    Ok((CommitBody::Schema(Schema::CreateTable(def)), rest))
}

fn drop_table_at(alloc: Global, bytes: &[u8]) -> Result<(CommitBody, &[u8]), ReadStop>
    ensures { Given result (drop_table_in bytes.now) }
{
    let (table, rest) = name_at(alloc, bytes)?;
    Ok((CommitBody::Schema(Schema::DropTable(table)), rest))
}

fn create_index_at(alloc: Global, bytes: &[u8]) -> Result<(CommitBody, &[u8]), ReadStop>
    ensures { Given result (create_index_in bytes.now) }
{
    let (table, rest) = name_at(alloc, bytes)?;
    let (key, rest) = key_at(alloc, 256, rest)?;
    Ok((CommitBody::Schema(Schema::CreateIndex(table, key)), rest))
}

fn drop_index_at(alloc: Global, bytes: &[u8]) -> Result<(CommitBody, &[u8]), ReadStop>
    ensures { Given result (drop_index_in bytes.now) }
{
    let (table, rest) = name_at(alloc, bytes)?;
    let (key, rest) = name_at(alloc, rest)?;
    Ok((CommitBody::Schema(Schema::DropIndex(table, key)), rest))
}

fn body_at(alloc: Global, bytes: &[u8]) -> Result<(CommitBody, &[u8]), ReadStop>
    ensures { Given result (body_in bytes.now) }
{
    match bytes {
        [0, rest @ ..] => rows_at(alloc, rest),
        [1, rest @ ..] => create_table_at(alloc, rest),
        [2, rest @ ..] => drop_table_at(alloc, rest),
        [3, rest @ ..] => create_index_at(alloc, rest),
        [4, rest @ ..] => drop_index_at(alloc, rest),
        _ => Err(ReadStop::Left(bytes.len())),
    }
}

fn whole_commit(alloc: Global, bytes: &[u8]) -> Result<Commit, ReadStop>
    ensures { GivesWhole result (whole_in commit_in bytes.now) }
{
    let (moment, rest) = u64_at(bytes)?;
    let (body, rest) = body_at(alloc, rest)?;
    end_of(rest)?;
    Ok(Commit { moment, body })
}

/// The commit that the bytes are, or the first offending place. Takes memory.
pub fn read_commit(alloc: Global, bytes: &[u8]) -> Result<Commit, DefAnswer>
    ensures ok { IfOk result (λ c. reads_commit bytes.now ≡ Ok c) }
    ensures err { IfErr result (IsAnswer (reads_commit bytes.now)) }
    ensures form { IfOk result (λ c. bytes.now ≡ commit_bytes c) }
{
    match whole_commit(alloc, bytes) {
        Ok(commit) => Ok(commit),
        Err(stop) => Err(answer_of(bytes.len(), stop)),
    }
}
