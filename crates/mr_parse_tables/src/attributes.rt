//! Collations, and the attributes of columns.

ghost use Rattle.std.specs.Prelude.{◌≡◌, not, is_none};
ghost use Rattle.mr_tokens.specs.Answers.{Reads};
ghost use Rattle.mr_spec.specs.Phrases as phrases;
ghost use Rattle.mr_spec.specs.TablePhrases as spec;

use mr_pieces::Collation;
use mr_spec::Attributes;
use mr_tokens::{Tokens, Unread, literal};
use std::alloc::Global;

/// That the test holds.
#[tactic(auto, unfolding(mr_spec::specs::Phrases::check))]
pub(crate) fn check(tokens: &Tokens<'_, '_>, test: bool) -> Result<(), Unread>
    ensures { Reads (phrases.check test tokens.now) result tokens.now }
{
    if test {
        Ok(())
    } else {
        Err(Unread::Misspelled)
    }
}

/// `ascii_bin | ascii_general_ci`
#[tactic(auto, unfolding(mr_spec::specs::TablePhrases::collation))]
pub(crate) fn collation(tokens: &mut Tokens<'_, '_>) -> Result<Collation, Unread>
    ensures { Reads (spec.collation tokens.old) result tokens.new }
{
    if tokens.eat(b"ascii_bin") {
        return Ok(Collation::Bin);
    }
    tokens.expect(b"ascii_general_ci")?;
    Ok(Collation::Ci)
}

/// `SET ascii`
#[tactic(auto, unfolding(mr_spec::specs::TablePhrases::set_ascii))]
fn set_ascii(tokens: &mut Tokens<'_, '_>) -> Result<(), Unread>
    ensures { Reads (spec.set_ascii tokens.old) result tokens.new }
{
    tokens.expect(b"set")?;
    tokens.expect(b"ascii")
}

#[tactic(auto, unfolding(mr_spec::specs::TablePhrases::with_nullable))]
fn with_nullable(
    tokens: &Tokens<'_, '_>,
    mut attributes: Attributes,
    nullable: bool,
) -> Result<Attributes, Unread>
    ensures { Reads (spec.with_nullable attributes nullable tokens.now) result tokens.now }
{
    check(tokens, attributes.nullable.is_none())?;
    attributes.nullable = Some(nullable);
    Ok(attributes)
}

#[tactic(auto, unfolding(mr_spec::specs::TablePhrases::with_default))]
fn with_default(
    alloc: Global,
    tokens: &mut Tokens<'_, '_>,
    mut attributes: Attributes,
) -> Result<Attributes, Unread>
    ensures { Reads (spec.with_default attributes tokens.old) result tokens.new }
{
    check(tokens, attributes.default.is_none())?;
    attributes.default = Some(literal(alloc, tokens)?);
    Ok(attributes)
}

#[tactic(auto, unfolding(mr_spec::specs::TablePhrases::with_charset))]
fn with_charset(
    tokens: &mut Tokens<'_, '_>,
    mut attributes: Attributes,
) -> Result<Attributes, Unread>
    ensures { Reads (spec.with_charset attributes tokens.old) result tokens.new }
{
    check(tokens, !attributes.charset)?;
    set_ascii(tokens)?;
    attributes.charset = true;
    Ok(attributes)
}

#[tactic(auto, unfolding(mr_spec::specs::TablePhrases::with_column_collation))]
fn with_collation(
    tokens: &mut Tokens<'_, '_>,
    mut attributes: Attributes,
) -> Result<Attributes, Unread>
    ensures { Reads (spec.with_column_collation attributes tokens.old) result tokens.new }
{
    check(tokens, attributes.collation.is_none())?;
    attributes.collation = Some(collation(tokens)?);
    Ok(attributes)
}

#[tactic(auto, unfolding(mr_spec::specs::TablePhrases::with_primary))]
fn with_primary(
    tokens: &mut Tokens<'_, '_>,
    mut attributes: Attributes,
) -> Result<Attributes, Unread>
    ensures { Reads (spec.with_primary attributes tokens.old) result tokens.new }
{
    check(tokens, !attributes.primary)?;
    tokens.expect(b"key")?;
    attributes.primary = true;
    Ok(attributes)
}

#[tactic(auto, unfolding(mr_spec::specs::TablePhrases::with_column_comment))]
fn with_comment(
    alloc: Global,
    tokens: &mut Tokens<'_, '_>,
    mut attributes: Attributes,
) -> Result<Attributes, Unread>
    ensures { Reads (spec.with_column_comment attributes tokens.old) result tokens.new }
{
    check(tokens, !attributes.comment)?;
    let _text = tokens.text(alloc)?;
    attributes.comment = true;
    Ok(attributes)
}

/// The attributes with the next one, and whether one came next.
#[tactic(auto, unfolding(mr_spec::specs::TablePhrases::text_attribute))]
fn text_attribute(
    alloc: Global,
    tokens: &mut Tokens<'_, '_>,
    attributes: Attributes,
) -> Result<(Attributes, bool), Unread>
    ensures { Reads (spec.text_attribute attributes tokens.old) result tokens.new }
{
    if tokens.eat(b"character") {
        return Ok((with_charset(tokens, attributes)?, true));
    }
    if tokens.eat(b"collate") {
        return Ok((with_collation(tokens, attributes)?, true));
    }
    if tokens.eat(b"comment") {
        return Ok((with_comment(alloc, tokens, attributes)?, true));
    }
    Ok((attributes, false))
}

/// The attributes with the next one, and whether one came next.
#[tactic(auto, unfolding(mr_spec::specs::TablePhrases::attribute))]
fn attribute(
    alloc: Global,
    tokens: &mut Tokens<'_, '_>,
    attributes: Attributes,
) -> Result<(Attributes, bool), Unread>
    ensures { Reads (spec.attribute attributes tokens.old) result tokens.new }
{
    if tokens.eat(b"not") {
        tokens.expect(b"null")?;
        return Ok((with_nullable(tokens, attributes, false)?, true));
    }
    if tokens.eat(b"null") {
        return Ok((with_nullable(tokens, attributes, true)?, true));
    }
    if tokens.eat(b"default") {
        return Ok((with_default(alloc, tokens, attributes)?, true));
    }
    if tokens.eat(b"primary") {
        return Ok((with_primary(tokens, attributes)?, true));
    }
    text_attribute(alloc, tokens, attributes)
}

/// `{attribute}`
pub(crate) fn attributes(alloc: Global, tokens: &mut Tokens<'_, '_>) -> Result<Attributes, Unread>
    ensures { Reads (spec.attributes tokens.old) result tokens.new }
{
    let mut found = Attributes {
        nullable: None,
        default: None,
        charset: false,
        collation: None,
        primary: false,
        comment: false,
    };
    for _turn in 0..tokens.len() {
        let (next, read) = attribute(alloc, tokens, found)?;
        found = next;
        if !read {
            return Ok(found);
        }
    }
    Ok(found)
}
