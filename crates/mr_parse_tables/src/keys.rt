//! Keys as statements write them.

ghost use Rattle.std.specs.Prelude.{◌≡◌, [], Some, IfOk};
ghost use Rattle.mr_tokens.specs.Answers.{Reads};
ghost use Rattle.mr_spec.specs.TablePhrases as spec;

use mr_base::{Blob, Memory};
use mr_tokens::{Tokens, Unread, names_in};
use mr_types::{KeyText, NameList};
use std::alloc::Global;

/// `KEY | INDEX`, if one of them comes next.
#[tactic(auto, unfolding(mr_spec::specs::TablePhrases::key_word))]
pub(crate) fn key_word(tokens: &mut Tokens<'_, '_>) -> bool
    ensures { spec.key_word tokens.old ≡ Some (result, tokens.new) }
{
    if tokens.eat(b"key") {
        return true;
    }
    tokens.eat(b"index")
}

/// `[COMMENT text]`; without it the comment is empty.
#[tactic(auto, unfolding(mr_spec::specs::TablePhrases::comment))]
pub fn comment(alloc: Global, tokens: &mut Tokens<'_, '_>) -> Result<Blob, Unread>
    ensures { Reads (spec.comment tokens.old) result tokens.new }
{
    if tokens.eat(b"comment") {
        tokens.text(alloc)
    } else {
        Ok(Blob::from_slice(alloc, &[])?)
    }
}

/// `name ( names ) [COMMENT text]`
#[tactic(auto, unfolding(mr_spec::specs::TablePhrases::named_key))]
pub(crate) fn named_key(
    alloc: Global,
    tokens: &mut Tokens<'_, '_>,
    unique: bool,
) -> Result<KeyText, Unread>
    ensures { Reads (spec.named_key unique tokens.old) result tokens.new }
{
    let name = tokens.name(alloc)?;
    let columns = names_in(alloc, tokens)?;
    let comment = comment(alloc, tokens)?;
    Ok(KeyText {
        name,
        primary: false,
        unique,
        columns,
        comment,
    })
}

/// A primary key of these columns.
pub(crate) fn primary_of(alloc: Global, columns: NameList, comment: Blob) -> Result<KeyText, Memory>
    ensures { IfOk result (λ k. k ≡ spec.primary_of columns comment) }
{
    Ok(KeyText {
        name: Blob::from_slice(alloc, &[])?,
        primary: true,
        unique: true,
        columns,
        comment,
    })
}

/// `KEY ( names ) [COMMENT text]`, behind PRIMARY.
#[tactic(auto, unfolding(mr_spec::specs::TablePhrases::primary_key))]
pub(crate) fn primary_key(alloc: Global, tokens: &mut Tokens<'_, '_>) -> Result<KeyText, Unread>
    ensures { Reads (spec.primary_key tokens.old) result tokens.new }
{
    tokens.expect(b"key")?;
    let columns = names_in(alloc, tokens)?;
    let comment = comment(alloc, tokens)?;
    Ok(primary_of(alloc, columns, comment)?)
}
