//! Statements, by their first keyword.

ghost use Rattle.std.specs.Prelude.{◌≡◌};
ghost use Rattle.mr_tokens.specs.Answers.{Reads};
ghost use Rattle.mr_spec.specs.Grammar as spec;

use crate::sessions::{
    begin, drop_statement, index_on, index_words, lock, new_index, release, rollback, start, work,
};
use mr_parse_rows::{delete, insert, select, update};
use mr_parse_tables::create_table;
use mr_spec::TableKey;
use mr_tokens::{Tokens, Unread};
use mr_types::Statement;
use std::alloc::Global;

/// What stands behind CREATE.
#[tactic(auto, unfolding(mr_spec::specs::Grammar::create))]
fn create(alloc: Global, tokens: &mut Tokens<'_, '_>) -> Result<Statement, Unread>
    ensures { Reads (spec.create tokens.old) result tokens.new }
{
    if tokens.eat(b"table") {
        return create_table(alloc, tokens);
    }
    match index_words(tokens)? {
        Some(unique) => create_index(alloc, tokens, unique),
        None => Err(Unread::Misspelled),
    }
}

fn create_index(
    alloc: Global,
    tokens: &mut Tokens<'_, '_>,
    unique: bool,
) -> Result<Statement, Unread>
    ensures { Reads (spec.made_index (Some unique) tokens.old) result tokens.new }
{
    let TableKey { table, key } = new_index(alloc, tokens, unique)?;
    Ok(Statement::CreateIndex { table, key })
}

/// A statement on rows, None where the first word is none of theirs.
#[tactic(auto, unfolding(mr_spec::specs::Grammar::row_statement))]
fn row_statement(alloc: Global, tokens: &mut Tokens<'_, '_>) -> Result<Option<Statement>, Unread>
    ensures { Reads (spec.row_statement tokens.old) result tokens.new }
{
    if tokens.eat(b"insert") {
        return Ok(Some(Statement::Insert(insert(alloc, tokens)?)));
    }
    if tokens.eat(b"select") {
        return Ok(Some(Statement::Select(select(alloc, tokens)?)));
    }
    if tokens.eat(b"update") {
        return Ok(Some(update(alloc, tokens)?));
    }
    if tokens.eat(b"delete") {
        return Ok(Some(delete(alloc, tokens)?));
    }
    if tokens.eat(b"replace") {
        return Ok(Some(Statement::Replace(insert(alloc, tokens)?)));
    }
    Ok(None)
}

/// A statement on tables and indexes.
#[tactic(auto, unfolding(mr_spec::specs::Grammar::schema_statement))]
fn schema_statement(alloc: Global, tokens: &mut Tokens<'_, '_>) -> Result<Option<Statement>, Unread>
    ensures { Reads (spec.schema_statement tokens.old) result tokens.new }
{
    if tokens.eat(b"create") {
        return Ok(Some(create(alloc, tokens)?));
    }
    if tokens.eat(b"drop") {
        return Ok(Some(drop_statement(alloc, tokens)?));
    }
    if tokens.eat(b"finish") {
        return Ok(Some(Statement::FinishIndex(index_on(alloc, tokens)?)));
    }
    if tokens.eat(b"cancel") {
        return Ok(Some(Statement::CancelIndex(index_on(alloc, tokens)?)));
    }
    Ok(None)
}

/// A statement on transactions; BEGIN INDEX begins as BEGIN does.
#[tactic(auto, unfolding(mr_spec::specs::Grammar::transaction, mr_spec::specs::Phrases::maybe))]
fn transaction(alloc: Global, tokens: &mut Tokens<'_, '_>) -> Result<Option<Statement>, Unread>
    ensures { Reads (spec.transaction tokens.old) result tokens.new }
{
    if tokens.eat(b"begin") {
        return Ok(Some(begin(alloc, tokens)?));
    }
    if tokens.eat(b"start") {
        return Ok(Some(start(tokens)?));
    }
    if tokens.eat(b"commit") {
        tokens.eat(b"work");
        return Ok(Some(Statement::Commit));
    }
    if tokens.eat(b"rollback") {
        return Ok(Some(rollback(alloc, tokens)?));
    }
    if tokens.eat(b"savepoint") {
        return Ok(Some(Statement::Savepoint(tokens.name(alloc)?)));
    }
    if tokens.eat(b"release") {
        return Ok(Some(release(alloc, tokens)?));
    }
    Ok(None)
}

/// A statement on locks and sessions.
#[tactic(auto, unfolding(mr_spec::specs::Grammar::session_statement))]
fn session_statement(alloc: Global, tokens: &mut Tokens<'_, '_>) -> Result<Statement, Unread>
    ensures { Reads (spec.session_statement tokens.old) result tokens.new }
{
    if tokens.eat(b"lock") {
        return lock(alloc, tokens);
    }
    if tokens.eat(b"unlock") {
        tokens.expect(b"tables")?;
        return Ok(Statement::Unlock);
    }
    if tokens.eat(b"session") {
        return Ok(Statement::Session(tokens.name(alloc)?));
    }
    if tokens.eat(b"disconnect") {
        return Ok(Statement::Disconnect);
    }
    tokens.expect(b"work")?;
    work(tokens)
}

#[tactic(auto, unfolding(mr_spec::specs::Grammar::transaction_or_session))]
fn transaction_or_session(alloc: Global, tokens: &mut Tokens<'_, '_>) -> Result<Statement, Unread>
    ensures { Reads (spec.transaction_or_session tokens.old) result tokens.new }
{
    match transaction(alloc, tokens)? {
        Some(statement) => Ok(statement),
        None => session_statement(alloc, tokens),
    }
}

#[tactic(auto, unfolding(mr_spec::specs::Grammar::other_statement))]
fn other_statement(alloc: Global, tokens: &mut Tokens<'_, '_>) -> Result<Statement, Unread>
    ensures { Reads (spec.other_statement tokens.old) result tokens.new }
{
    match schema_statement(alloc, tokens)? {
        Some(statement) => Ok(statement),
        None => transaction_or_session(alloc, tokens),
    }
}

#[tactic(auto, unfolding(mr_spec::specs::Grammar::statement))]
fn statement(alloc: Global, tokens: &mut Tokens<'_, '_>) -> Result<Statement, Unread>
    ensures { Reads (spec.statement tokens.old) result tokens.new }
{
    match row_statement(alloc, tokens)? {
        Some(statement) => Ok(statement),
        None => other_statement(alloc, tokens),
    }
}

/// A statement behind which nothing stands.
#[tactic(auto, unfolding(mr_spec::specs::Grammar::whole_statement))]
pub(crate) fn whole_statement(
    alloc: Global,
    tokens: &mut Tokens<'_, '_>,
) -> Result<Statement, Unread>
    ensures { Reads (spec.whole_statement tokens.old) result tokens.new }
{
    let statement = statement(alloc, tokens)?;
    tokens.ended()?;
    Ok(statement)
}
