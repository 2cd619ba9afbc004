//! Options of tables.

ghost use Rattle.std.specs.Prelude.{◌≡◌};
ghost use Rattle.mr_tokens.specs.Answers.{Reads};
ghost use Rattle.mr_spec.specs.TablePhrases as spec;

use crate::attributes::{check, collation};
use mr_spec::TableOptions;
use mr_tokens::{Tokens, Unread};
use std::alloc::Global;

#[tactic(auto, unfolding(mr_spec::specs::TablePhrases::with_engine, mr_spec::specs::Phrases::maybe_sign))]
fn with_engine(
    alloc: Global,
    tokens: &mut Tokens<'_, '_>,
    mut options: TableOptions,
) -> Result<TableOptions, Unread>
    ensures { Reads (spec.with_engine options tokens.old) result tokens.new }
{
    check(tokens, options.engine.is_none())?;
    tokens.eat_sign(b"=");
    options.engine = Some(tokens.word(alloc)?);
    Ok(options)
}

#[tactic(auto, unfolding(mr_spec::specs::TablePhrases::with_table_comment, mr_spec::specs::Phrases::maybe_sign))]
fn with_comment(
    alloc: Global,
    tokens: &mut Tokens<'_, '_>,
    mut options: TableOptions,
) -> Result<TableOptions, Unread>
    ensures { Reads (spec.with_table_comment options tokens.old) result tokens.new }
{
    check(tokens, options.comment.is_none())?;
    tokens.eat_sign(b"=");
    options.comment = Some(tokens.text(alloc)?);
    Ok(options)
}

/// `[=] ascii`
#[tactic(auto, unfolding(mr_spec::specs::TablePhrases::with_table_charset, mr_spec::specs::Phrases::maybe_sign))]
fn with_charset(
    tokens: &mut Tokens<'_, '_>,
    mut options: TableOptions,
) -> Result<TableOptions, Unread>
    ensures { Reads (spec.with_table_charset options tokens.old) result tokens.new }
{
    check(tokens, !options.charset)?;
    tokens.eat_sign(b"=");
    tokens.expect(b"ascii")?;
    options.charset = true;
    Ok(options)
}

#[tactic(auto, unfolding(mr_spec::specs::TablePhrases::with_table_collation, mr_spec::specs::Phrases::maybe_sign))]
fn with_collation(
    tokens: &mut Tokens<'_, '_>,
    mut options: TableOptions,
) -> Result<TableOptions, Unread>
    ensures { Reads (spec.with_table_collation options tokens.old) result tokens.new }
{
    check(tokens, options.collation.is_none())?;
    tokens.eat_sign(b"=");
    options.collation = Some(collation(tokens)?);
    Ok(options)
}

/// The options that DEFAULT may stand before, and whether one came next.
#[tactic(auto, unfolding(mr_spec::specs::TablePhrases::text_option))]
fn text_option(
    tokens: &mut Tokens<'_, '_>,
    options: TableOptions,
) -> Result<(TableOptions, bool), Unread>
    ensures { Reads (spec.text_option options tokens.old) result tokens.new }
{
    if tokens.eat(b"charset") {
        return Ok((with_charset(tokens, options)?, true));
    }
    if tokens.eat(b"character") {
        tokens.expect(b"set")?;
        return Ok((with_charset(tokens, options)?, true));
    }
    if tokens.eat(b"collate") {
        return Ok((with_collation(tokens, options)?, true));
    }
    Ok((options, false))
}

/// That an option came next.
#[tactic(auto, unfolding(mr_spec::specs::TablePhrases::demand))]
fn demand(
    tokens: &Tokens<'_, '_>,
    next: (TableOptions, bool),
) -> Result<(TableOptions, bool), Unread>
    ensures { Reads (spec.demand next tokens.now) result tokens.now }
{
    if next.1 {
        Ok(next)
    } else {
        Err(Unread::Misspelled)
    }
}

#[tactic(auto, unfolding(mr_spec::specs::TablePhrases::plain_option))]
fn plain_option(
    alloc: Global,
    tokens: &mut Tokens<'_, '_>,
    options: TableOptions,
) -> Result<(TableOptions, bool), Unread>
    ensures { Reads (spec.plain_option options tokens.old) result tokens.new }
{
    if tokens.eat(b"engine") {
        return Ok((with_engine(alloc, tokens, options)?, true));
    }
    if tokens.eat(b"comment") {
        return Ok((with_comment(alloc, tokens, options)?, true));
    }
    if tokens.eat(b"default") {
        let next = text_option(tokens, options)?;
        return demand(tokens, next);
    }
    text_option(tokens, options)
}

/// The options with the next one, and whether one came next.
#[tactic(auto, unfolding(mr_spec::specs::TablePhrases::option))]
fn option(
    alloc: Global,
    tokens: &mut Tokens<'_, '_>,
    options: TableOptions,
) -> Result<(TableOptions, bool), Unread>
    ensures { Reads (spec.option options tokens.old) result tokens.new }
{
    if tokens.eat_sign(b",") {
        let next = plain_option(alloc, tokens, options)?;
        return demand(tokens, next);
    }
    plain_option(alloc, tokens, options)
}

/// `{[,] option}`
pub(crate) fn options(alloc: Global, tokens: &mut Tokens<'_, '_>) -> Result<TableOptions, Unread>
    ensures { Reads (spec.options tokens.old) result tokens.new }
{
    let mut found = TableOptions {
        engine: None,
        charset: false,
        collation: None,
        comment: None,
    };
    for _turn in 0..tokens.len() {
        let (next, read) = option(alloc, tokens, found)?;
        found = next;
        if !read {
            return Ok(found);
        }
    }
    Ok(found)
}
