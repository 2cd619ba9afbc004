//! Lists of names.

ghost use Rattle.std.specs.Prelude.{◌≡◌};
ghost use Rattle.mr_tokens.specs.Answers.{Reads};
ghost use Rattle.mr_spec.specs.Phrases as phrases;

use crate::tokens::Tokens;
use crate::unread::Unread;
use mr_types::NameList;
use sqlite_items::Items;
use std::alloc::Global;

/// `name {, name}`
pub fn names(alloc: Global, tokens: &mut Tokens<'_, '_>) -> Result<NameList, Unread>
    ensures { Reads (phrases.names tokens.old) result tokens.new }
{
    let mut found = Items::new(alloc);
    for _turn in 0..tokens.len() {
        found.push(tokens.name(alloc)?)?;
        if !tokens.eat_sign(b",") {
            return Ok(found);
        }
    }
    Err(Unread::Misspelled)
}

/// `( name {, name} )`
#[tactic(auto, unfolding(mr_spec::specs::Phrases::in_parentheses))]
pub fn names_in(alloc: Global, tokens: &mut Tokens<'_, '_>) -> Result<NameList, Unread>
    ensures { Reads (phrases.names_in tokens.old) result tokens.new }
{
    tokens.expect_sign(b"(")?;
    let found = names(alloc, tokens)?;
    tokens.expect_sign(b")")?;
    Ok(found)
}
