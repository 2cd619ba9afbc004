//! A statement from its text.

ghost use Rattle.std.specs.Prelude.{IfOk};
ghost use Rattle.std.specs.Option.{option_map};
ghost use Rattle.mr_lex.specs.Reading.{tokens_of};
ghost use Rattle.mr_tokens.specs.Answers.{IsGiven};
ghost use Rattle.mr_parse.specs.Collected.{AreAll};
ghost use Rattle.mr_tokens.specs.Cursor.{lexemes};
ghost use Rattle.mr_spec.specs.Grammar.{parsed, statement_of};
ghost use Rattle.mr_types.specs.Grammatical.{IsGrammatical};
ghost use Rattle.mr_types.specs.Values.{Answers};

use crate::statements::whole_statement;
use mr_lex::{Lexer, Token};
use mr_tokens::{Tokens, Unread};
use mr_types::{Refused, Statement};
use std::alloc::{AllocError, Global};

/// The greatest length of a statement's text, in bytes.
const LONGEST: usize = 1048576;

/// All tokens of a text, None where no token begins at some place.
fn collected<'a>(alloc: Global, text: &'a [u8]) -> Result<Option<Vec<Token<'a>>>, AllocError>
    ensures { IfOk result (λ found. AreAll (tokens_of text.now) (option_map (λ v. lexemes v.items) found)) }
{
    let mut lexer = Lexer::new(text);
    let mut found = Vec::new(alloc);
    loop {
        match lexer.next_token() {
            Err(_) => return Ok(None),
            Ok(None) => return Ok(Some(found)),
            Ok(Some(token)) => found.push(token)?,
        }
    }
}

/// The statement that a text spells.
#[tactic(auto, unfolding(mr_spec::specs::Grammar::statement_of))]
fn spelled(alloc: Global, text: &[u8]) -> Result<Statement, Unread>
    ensures { IsGiven (statement_of text.now) result }
{
    match collected(alloc, text)? {
        Some(tokens) => whole_statement(alloc, &mut Tokens::new(&tokens)),
        None => Err(Unread::Misspelled),
    }
}

/// The statement that a text spells: 1153 where the text has more than 1,048,576 bytes, else 1064 where it spells
/// none.
pub fn parse_statement(alloc: Global, text: &[u8]) -> Result<Statement, Refused>
    ensures answers { Answers result (parsed text.now) }
    ensures grammatical { IfOk result (λ statement. IsGrammatical statement) }
{
    if text.len() > LONGEST {
        return Err(Refused::Sql(1153));
    }
    match spelled(alloc, text) {
        Ok(statement) => Ok(statement),
        Err(Unread::Memory) => Err(Refused::Memory),
        Err(Unread::Misspelled) => Err(Refused::Sql(1064)),
    }
}
