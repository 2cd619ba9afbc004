//! Tables and indexes by name, transactions, locks and sessions; each behind its first keyword.

ghost use Rattle.std.specs.Prelude.{◌≡◌};
ghost use Rattle.mr_tokens.specs.Answers.{Reads};
ghost use Rattle.mr_spec.specs.Phrases.{listed};
ghost use Rattle.mr_spec.specs.SessionPhrases as spec;

use mr_base::Blob;
use mr_parse_tables::comment;
use mr_spec::TableKey;
use mr_tokens::{Tokens, Unread, names_in};
use mr_types::{KeyName, KeyText, NameList, Statement};
use sqlite_items::Items;
use std::alloc::Global;

/// The greatest number of units of WORK.
const MOST_UNITS: u128 = 1000000;

/// `name ON name`
#[tactic(auto, unfolding(mr_spec::specs::SessionPhrases::key_on))]
fn key_on(alloc: Global, tokens: &mut Tokens<'_, '_>) -> Result<KeyName, Unread>
    ensures { Reads (spec.key_on tokens.old) result tokens.new }
{
    let key = tokens.name(alloc)?;
    tokens.expect(b"on")?;
    let table = tokens.name(alloc)?;
    Ok(KeyName { table, key })
}

/// `INDEX name ON name`
#[tactic(auto, unfolding(mr_spec::specs::SessionPhrases::index_on))]
pub(crate) fn index_on(alloc: Global, tokens: &mut Tokens<'_, '_>) -> Result<KeyName, Unread>
    ensures { Reads (spec.index_on tokens.old) result tokens.new }
{
    tokens.expect(b"index")?;
    key_on(alloc, tokens)
}

/// `name ON name ( names ) [COMMENT text]`
#[tactic(auto, unfolding(mr_spec::specs::SessionPhrases::new_index))]
pub(crate) fn new_index(
    alloc: Global,
    tokens: &mut Tokens<'_, '_>,
    unique: bool,
) -> Result<TableKey, Unread>
    ensures { Reads (spec.new_index unique tokens.old) result tokens.new }
{
    let KeyName { table, key } = key_on(alloc, tokens)?;
    let columns = names_in(alloc, tokens)?;
    let comment = comment(alloc, tokens)?;
    let key = KeyText {
        name: key,
        primary: false,
        unique,
        columns,
        comment,
    };
    Ok(TableKey { table, key })
}

/// `[UNIQUE] INDEX`, if one of them comes next: whether UNIQUE stands there.
#[tactic(auto, unfolding(mr_spec::specs::SessionPhrases::index_words))]
pub(crate) fn index_words(tokens: &mut Tokens<'_, '_>) -> Result<Option<bool>, Unread>
    ensures { Reads (spec.index_words tokens.old) result tokens.new }
{
    if tokens.eat(b"unique") {
        tokens.expect(b"index")?;
        return Ok(Some(true));
    }
    if tokens.eat(b"index") {
        Ok(Some(false))
    } else {
        Ok(None)
    }
}

/// `[IF EXISTS]`
#[tactic(auto, unfolding(mr_spec::specs::SessionPhrases::if_exists))]
fn if_exists(tokens: &mut Tokens<'_, '_>) -> Result<bool, Unread>
    ensures { Reads (spec.if_exists tokens.old) result tokens.new }
{
    if !tokens.eat(b"if") {
        return Ok(false);
    }
    tokens.expect(b"exists")?;
    Ok(true)
}

/// What stands behind DROP.
#[tactic(auto, unfolding(mr_spec::specs::SessionPhrases::drop))]
pub(crate) fn drop_statement(
    alloc: Global,
    tokens: &mut Tokens<'_, '_>,
) -> Result<Statement, Unread>
    ensures { Reads (spec.drop tokens.old) result tokens.new }
{
    if tokens.eat(b"table") {
        let if_exists = if_exists(tokens)?;
        let table = tokens.name(alloc)?;
        return Ok(Statement::DropTable { table, if_exists });
    }
    Ok(Statement::DropIndex(index_on(alloc, tokens)?))
}

/// What stands behind BEGIN.
#[tactic(auto, unfolding(mr_spec::specs::SessionPhrases::begin))]
pub(crate) fn begin(alloc: Global, tokens: &mut Tokens<'_, '_>) -> Result<Statement, Unread>
    ensures { Reads (spec.begin tokens.old) result tokens.new }
{
    match index_words(tokens)? {
        Some(unique) => begin_index(alloc, tokens, unique),
        None => Ok(begin_work(tokens)),
    }
}

fn begin_index(
    alloc: Global,
    tokens: &mut Tokens<'_, '_>,
    unique: bool,
) -> Result<Statement, Unread>
    ensures { Reads (spec.begun (Some unique) tokens.old) result tokens.new }
{
    let TableKey { table, key } = new_index(alloc, tokens, unique)?;
    Ok(Statement::BeginIndex { table, key })
}

/// `[WORK]`
#[tactic(auto, unfolding(mr_spec::specs::Phrases::maybe))]
fn begin_work(tokens: &mut Tokens<'_, '_>) -> Statement
    ensures { spec.begun None tokens.old ≡ Some (result, tokens.new) }
{
    tokens.eat(b"work");
    Statement::Begin { snapshot: false }
}

/// `[WITH CONSISTENT SNAPSHOT]`
#[tactic(auto, unfolding(mr_spec::specs::SessionPhrases::with_snapshot))]
fn with_snapshot(tokens: &mut Tokens<'_, '_>) -> Result<bool, Unread>
    ensures { Reads (spec.with_snapshot tokens.old) result tokens.new }
{
    if !tokens.eat(b"with") {
        return Ok(false);
    }
    tokens.expect(b"consistent")?;
    tokens.expect(b"snapshot")?;
    Ok(true)
}

/// What stands behind START.
#[tactic(auto, unfolding(mr_spec::specs::SessionPhrases::start))]
pub(crate) fn start(tokens: &mut Tokens<'_, '_>) -> Result<Statement, Unread>
    ensures { Reads (spec.start tokens.old) result tokens.new }
{
    tokens.expect(b"transaction")?;
    let snapshot = with_snapshot(tokens)?;
    Ok(Statement::Begin { snapshot })
}

/// `[SAVEPOINT] name`, where SAVEPOINT is a keyword only if a name follows.
#[tactic(auto, unfolding(mr_spec::specs::SessionPhrases::savepoint_name))]
fn savepoint_name(alloc: Global, tokens: &mut Tokens<'_, '_>) -> Result<Blob, Unread>
    ensures { Reads (spec.savepoint_name tokens.old) result tokens.new }
{
    if tokens.sees(b"savepoint") && tokens.behind().begins_name() {
        tokens.skip();
    }
    tokens.name(alloc)
}

/// What stands behind ROLLBACK.
#[tactic(auto, unfolding(mr_spec::specs::SessionPhrases::rollback, mr_spec::specs::Phrases::maybe))]
pub(crate) fn rollback(alloc: Global, tokens: &mut Tokens<'_, '_>) -> Result<Statement, Unread>
    ensures { Reads (spec.rollback tokens.old) result tokens.new }
{
    tokens.eat(b"work");
    if tokens.eat(b"to") {
        return Ok(Statement::RollbackTo(savepoint_name(alloc, tokens)?));
    }
    Ok(Statement::Rollback)
}

/// What stands behind RELEASE.
#[tactic(auto, unfolding(mr_spec::specs::SessionPhrases::release))]
pub(crate) fn release(alloc: Global, tokens: &mut Tokens<'_, '_>) -> Result<Statement, Unread>
    ensures { Reads (spec.release tokens.old) result tokens.new }
{
    tokens.expect(b"savepoint")?;
    Ok(Statement::Release(tokens.name(alloc)?))
}

/// `READ | WRITE`
#[tactic(auto, unfolding(mr_spec::specs::SessionPhrases::lock_mode))]
fn lock_mode(tokens: &mut Tokens<'_, '_>) -> Result<(), Unread>
    ensures { Reads (spec.lock_mode tokens.old) result tokens.new }
{
    if tokens.eat(b"read") {
        return Ok(());
    }
    tokens.expect(b"write")
}

/// `name (READ | WRITE)`
#[tactic(auto, unfolding(mr_spec::specs::SessionPhrases::locked_table))]
fn locked_table(alloc: Global, tokens: &mut Tokens<'_, '_>) -> Result<Blob, Unread>
    ensures { Reads (spec.locked_table tokens.old) result tokens.new }
{
    let table = tokens.name(alloc)?;
    lock_mode(tokens)?;
    Ok(table)
}

fn locked_tables(alloc: Global, tokens: &mut Tokens<'_, '_>) -> Result<NameList, Unread>
    ensures { Reads (listed spec.locked_table tokens.old) result tokens.new }
{
    let mut found = Items::new(alloc);
    for _turn in 0..tokens.len() {
        found.push(locked_table(alloc, tokens)?)?;
        if !tokens.eat_sign(b",") {
            return Ok(found);
        }
    }
    Err(Unread::Misspelled)
}

/// What stands behind LOCK.
#[tactic(auto, unfolding(mr_spec::specs::SessionPhrases::lock))]
pub(crate) fn lock(alloc: Global, tokens: &mut Tokens<'_, '_>) -> Result<Statement, Unread>
    ensures { Reads (spec.lock tokens.old) result tokens.new }
{
    tokens.expect(b"tables")?;
    Ok(Statement::Lock(locked_tables(alloc, tokens)?))
}

/// What stands behind WORK.
#[tactic(auto, unfolding(mr_spec::specs::SessionPhrases::work))]
pub(crate) fn work(tokens: &mut Tokens<'_, '_>) -> Result<Statement, Unread>
    ensures { Reads (spec.work tokens.old) result tokens.new }
{
    Ok(Statement::Work(tokens.number(0, MOST_UNITS)? as u32))
}
