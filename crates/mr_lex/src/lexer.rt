//! The tokens of a text, one after the other.

ghost use Rattle.std.specs.Prelude.{◌≡◌, ◌≤◌, ◌<◌, true, length, drop, IfSome};
ghost use Rattle.mr_lex.specs.Blank.{blank_front};
ghost use Rattle.mr_lex.specs.Reading.{Lexemes, AreSpans, IsNext, tokens_of, tokens_from, token_front, lexeme};
ghost use Rattle.std.specs.Option.{option_map};

use crate::blank::blank_len;
use crate::front::front;
use crate::token::{BadToken, Token};
use std::marker::Model;

/// The place behind all white space and whole comments that stand at this place.
fn behind_blank(text: &[u8], from: usize) -> usize
    requires { from ≤ length text.now }
    ensures within { result ≤ length text.now }
    ensures none { blank_front true (drop result text.now) ≡ 0 }
    ensures same { tokens_from from 0 (drop from text.now) ≡ tokens_from result 0 (drop result text.now) }
{
    let mut at = from;
    let mut blank = blank_len(&text[at..]);
    while blank > 0 {
        at += blank;
        blank = blank_len(&text[at..]);
    }
    at
}

/// The token at this place, None where no token begins there.
fn token_at<'a>(text: &'a [u8], at: usize) -> Option<Token<'a>>
    requires within { at ≤ length text.now }
    ensures end { IfSome result (λ t. (at < t.end) × (t.end ≤ length text.now)) }
    ensures token { token_front at (drop at text.now) ≡ option_map lexeme result }
{
    match front(&text[at..]) {
        None => None,
        Some((kind, len)) => {
            let end = at + len;
            Some(Token {
                kind,
                slice: &text[at..end],
                start: at,
                end,
            })
        }
    }
}

/// The tokens of a text that are still to come.
#[derive(Drop)]
pub struct Lexer<'a> {
    text: &'a [u8],
    at: usize,
}

impl<'a> Model for Lexer<'a> {
    ghost Value = { Lexemes };

    ghost view = { λ s. tokens_from s.at 0 (drop s.at s.text.now) };

    ghost invariant = { λ s. s.at ≤ length s.text.now };
}

impl<'a> Lexer<'a> {
    /// All tokens of a text, up to the first place where none begins.
    pub fn new(text: &'a [u8]) -> Lexer<'a>
        ensures tokens { result ≡ tokens_of text.now }
        ensures spans { AreSpans text.now 0 result.found }
    {
        Lexer { text, at: 0 }
    }

    /// The next token, None at the end. Where no token begins at a place, the lexer stays there.
    pub fn next_token(&mut self) -> Result<Option<Token<'a>>, BadToken>
        ensures { IsNext self.old result self.new }
    {
        let start = behind_blank(self.text, self.at);
        self.at = start;
        if start == self.text.len() {
            return Ok(None);
        }
        match token_at(self.text, start) {
            None => Err(BadToken(start)),
            Some(token) => {
                self.at = token.end;
                Ok(Some(token))
            }
        }
    }
}
