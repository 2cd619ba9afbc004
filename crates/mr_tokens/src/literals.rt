//! Literals.

ghost use Rattle.std.specs.Prelude.{◌≡◌, ◌<◌, ◌^◌, IfOk};
ghost use Rattle.mr_tokens.specs.Answers.{Reads};
ghost use Rattle.mr_types.specs.Values.{negated as negated_of};
ghost use Rattle.mr_spec.specs.Literals as spec;

use crate::tokens::Tokens;
use crate::unread::Unread;
use mr_lex::TokenKind;
use mr_types::Value;
use std::alloc::Global;

/// 2^127 - 1
const GREATEST: u128 = 170141183460469231731687303715884105727;

/// Any number that can be written.
pub fn any_number(tokens: &mut Tokens<'_, '_>) -> Result<u128, Unread>
    ensures reads { Reads (spec.any_number tokens.old) result tokens.new }
    ensures within { IfOk result (λ n. n < 2 ^ 127) }
{
    tokens.number(0, GREATEST)
}

fn negated(number: u128) -> i128
    requires { number < 2 ^ 127 }
    ensures { result ≡ negated_of number }
{
    if number == 0 {
        0
    } else {
        -1 - (number - 1) as i128
    }
}

/// `[-] number`, a text, bytes or NULL.
#[tactic(auto, unfolding(mr_spec::specs::Literals::literal))]
pub fn literal(alloc: Global, tokens: &mut Tokens<'_, '_>) -> Result<Value, Unread>
    ensures { Reads (spec.literal tokens.old) result tokens.new }
{
    if tokens.eat_sign(b"-") {
        return Ok(Value::Number(negated(any_number(tokens)?)));
    }
    unsigned_literal(alloc, tokens)
}

#[tactic(auto, unfolding(mr_spec::specs::Literals::unsigned_literal))]
fn unsigned_literal(alloc: Global, tokens: &mut Tokens<'_, '_>) -> Result<Value, Unread>
    ensures { Reads (spec.unsigned_literal tokens.old) result tokens.new }
{
    match tokens.kind() {
        Some(TokenKind::Number) => Ok(Value::Number(any_number(tokens)? as i128)),
        Some(TokenKind::Text) => Ok(Value::Text(tokens.text(alloc)?)),
        Some(TokenKind::Bytes) => Ok(Value::Bytes(tokens.binary(alloc)?)),
        Some(TokenKind::Word) => {
            tokens.expect(b"null")?;
            Ok(Value::Null)
        }
        _ => Err(Unread::Misspelled),
    }
}
