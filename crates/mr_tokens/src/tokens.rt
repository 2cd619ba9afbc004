//! A reader of tokens, and what it takes off their front.

ghost use Rattle.std.specs.Prelude.{◌≡◌, ◌<◌, ◌≤◌, ◌^◌, length, IfOk};
ghost use Rattle.mr_tokens.specs.Answers.{Reads, IsGiven};
ghost use Rattle.mr_lex.specs.Reading.{lexeme};
ghost use Rattle.mr_tokens.specs.Cursor.{lexemes};
ghost use Rattle.mr_spec.specs.Words as words;
ghost use Rattle.mr_spec.specs.Literals as literals;
ghost use Rattle.mr_spec.specs.Phrases as spec;

use crate::quoted::{binary_bytes, text_bytes, undoubled};
use crate::unread::Unread;
use crate::words::{
    is_bytes, is_name, is_number, is_reserved, is_same, is_sign_kind, is_text, is_word, number_of,
};
use mr_base::Blob;
use mr_lanes::is_ascii;
use mr_lex::{Token, TokenKind};
use std::alloc::Global;
use std::marker::Model;

/// The tokens that are still to be read.
#[derive(Drop)]
pub struct Tokens<'a, 't> {
    left: &'t [Token<'a>],
}

impl<'a, 't> Model for Tokens<'a, 't> {
    ghost use Rattle.std.specs.Prelude.{List};
    ghost use Rattle.mr_lex.specs.Reading.{Lexeme};
    ghost use Rattle.mr_tokens.specs.Cursor.{lexemes};

    ghost Value = { List Lexeme };

    ghost view = { λ s. lexemes s.left.now };
}

#[tactic(auto, unfolding(mr_spec::specs::Words::is_keyword))]
fn is_keyword(word: &[u8], token: &Token<'_>) -> bool
    ensures { result ≡ words.is_keyword word.now (lexeme token.now) }
{
    is_word(token.kind) && is_same(word, token.slice)
}

#[tactic(auto, unfolding(mr_spec::specs::Words::is_sign))]
fn is_sign(sign: &[u8], token: &Token<'_>) -> bool
    ensures { result ≡ words.is_sign sign.now (lexeme token.now) }
{
    is_sign_kind(token.kind) && token.slice == sign
}

/// The text, where its bytes are below 0x80.
fn ascii(text: Vec<u8>) -> Result<Blob, Unread>
    ensures { IsGiven (words.only_ascii text.items) result }
{
    if is_ascii(text.as_slice()) {
        Ok(Blob::from_vec(text))
    } else {
        Err(Unread::Misspelled)
    }
}

/// The name, where its bytes may be one.
fn only_name(alloc: Global, name: &[u8]) -> Result<Blob, Unread>
    ensures { IsGiven (words.only_name name.now) result }
{
    if is_name(name) {
        Ok(Blob::from_slice(alloc, name)?)
    } else {
        Err(Unread::Misspelled)
    }
}

/// Whether a token can only be a name.
#[tactic(auto, unfolding(mr_spec::specs::Words::is_namelike))]
fn is_namelike(token: &Token<'_>) -> bool
    ensures { result ≡ words.is_namelike token.now.kind token.now.slice.now }
{
    match token.kind {
        TokenKind::Word => !is_reserved(token.slice),
        TokenKind::QuotedName => true,
        _ => false,
    }
}

/// The name that a token is.
#[tactic(auto, unfolding(mr_spec::specs::Words::name_in))]
fn name_in(alloc: Global, token: &Token<'_>) -> Result<Blob, Unread>
    ensures { IsGiven (words.name_in token.now.kind token.now.slice.now) result }
{
    match token.kind {
        TokenKind::Word if !is_reserved(token.slice) => only_name(alloc, token.slice),
        TokenKind::QuotedName => {
            let name = undoubled(alloc, b'`', &token.slice[token.slice.len().min(1)..])?;
            only_name(alloc, name.as_slice())
        }
        _ => Err(Unread::Misspelled),
    }
}

impl<'a, 't> Tokens<'a, 't> {
    /// A reader of these tokens.
    pub fn new(left: &'t [Token<'a>]) -> Tokens<'a, 't>
        ensures { result ≡ lexemes left.now }
    {
        Tokens { left }
    }

    /// How many tokens are left.
    pub fn len(&self) -> usize
        ensures { result ≡ length self.now }
    {
        self.left.len()
    }

    /// What kind of token comes next.
    #[tactic(auto, unfolding(mr_spec::specs::Phrases::first_kind))]
    pub fn kind(&self) -> Option<TokenKind>
        ensures { result ≡ spec.first_kind self.now }
    {
        match self.left {
            [] => None,
            [first, ..] => Some(first.kind),
        }
    }

    /// Whether the keyword, given in small letters, comes next.
    #[tactic(auto, unfolding(mr_spec::specs::Phrases::sees))]
    pub fn sees(&self, word: &[u8]) -> bool
        ensures { result ≡ spec.sees word.now self.now }
    {
        match self.left {
            [] => false,
            [first, ..] => is_keyword(word, first),
        }
    }

    /// Whether the sign comes next.
    #[tactic(auto, unfolding(mr_spec::specs::Phrases::sees_sign))]
    pub fn sees_sign(&self, sign: &[u8]) -> bool
        ensures { result ≡ spec.sees_sign sign.now self.now }
    {
        match self.left {
            [] => false,
            [first, ..] => is_sign(sign, first),
        }
    }

    /// The tokens behind the first one.
    #[tactic(auto, unfolding(mr_spec::specs::Phrases::behind))]
    pub fn behind(&self) -> Tokens<'a, 't>
        ensures { result ≡ spec.behind self.now }
    {
        match self.left {
            [] => Tokens { left: self.left },
            [_, rest @ ..] => Tokens { left: rest },
        }
    }

    /// Leaves the first token out, if there is one.
    #[tactic(auto, unfolding(mr_spec::specs::Phrases::behind))]
    pub fn skip(&mut self)
        ensures { self.new ≡ spec.behind self.old }
    {
        if let [_, rest @ ..] = self.left {
            self.left = rest;
        }
    }

    /// Takes the keyword, if it comes next.
    #[tactic(auto, unfolding(mr_spec::specs::Phrases::after))]
    pub fn eat(&mut self, word: &[u8]) -> bool
        ensures found { result ≡ spec.sees word.now self.old }
        ensures after { self.new ≡ spec.after word.now self.old }
    {
        let found = self.sees(word);
        if found {
            self.skip();
        }
        found
    }

    /// Takes the sign, if it comes next.
    #[tactic(auto, unfolding(mr_spec::specs::Phrases::after_sign))]
    pub fn eat_sign(&mut self, sign: &[u8]) -> bool
        ensures found { result ≡ spec.sees_sign sign.now self.old }
        ensures after { self.new ≡ spec.after_sign sign.now self.old }
    {
        let found = self.sees_sign(sign);
        if found {
            self.skip();
        }
        found
    }

    /// Takes the keyword, given in small letters, which must come next.
    #[tactic(auto, unfolding(mr_spec::specs::Phrases::expect))]
    pub fn expect(&mut self, word: &[u8]) -> Result<(), Unread>
        ensures { Reads (spec.expect word.now self.old) result self.new }
    {
        if !self.sees(word) {
            return Err(Unread::Misspelled);
        }
        self.skip();
        Ok(())
    }

    /// Takes the sign, which must come next.
    #[tactic(auto, unfolding(mr_spec::specs::Phrases::expect_sign))]
    pub fn expect_sign(&mut self, sign: &[u8]) -> Result<(), Unread>
        ensures { Reads (spec.expect_sign sign.now self.old) result self.new }
    {
        if !self.sees_sign(sign) {
            return Err(Unread::Misspelled);
        }
        self.skip();
        Ok(())
    }

    /// That no token is left.
    #[tactic(auto, unfolding(mr_spec::specs::Phrases::ended))]
    pub fn ended(&self) -> Result<(), Unread>
        ensures { Reads (spec.ended self.now) result self.now }
    {
        match self.left {
            [] => Ok(()),
            _ => Err(Unread::Misspelled),
        }
    }

    /// Whether a name comes next.
    #[tactic(auto, unfolding(mr_spec::specs::Phrases::begins_name))]
    pub fn begins_name(&self) -> bool
        ensures { result ≡ spec.begins_name self.now }
    {
        match self.left {
            [] => false,
            [first, ..] => is_namelike(first),
        }
    }

    /// A name, as it is written, without quotes.
    #[tactic(auto, unfolding(mr_spec::specs::Phrases::name, mr_spec::specs::Phrases::behind))]
    pub fn name(&mut self, alloc: Global) -> Result<Blob, Unread>
        ensures { Reads (spec.name self.old) result self.new }
    {
        let [first, rest @ ..] = self.left else {
            return Err(Unread::Misspelled);
        };
        let name = name_in(alloc, first)?;
        self.left = rest;
        Ok(name)
    }

    /// Any word, also a reserved one.
    #[tactic(auto, unfolding(mr_spec::specs::Phrases::word))]
    pub fn word(&mut self, alloc: Global) -> Result<Blob, Unread>
        ensures { Reads (spec.word self.old) result self.new }
    {
        match self.left {
            [first, rest @ ..] if is_word(first.kind) && is_ascii(first.slice) => {
                self.left = rest;
                Ok(Blob::from_slice(alloc, first.slice)?)
            }
            _ => Err(Unread::Misspelled),
        }
    }

    /// A text, which is what it stands for.
    #[tactic(auto, unfolding(mr_spec::specs::Phrases::text))]
    pub fn text(&mut self, alloc: Global) -> Result<Blob, Unread>
        ensures { Reads (spec.text self.old) result self.new }
    {
        match self.left {
            [first, rest @ ..] if is_text(first.kind) => {
                let text = text_bytes(alloc, first.slice)?;
                self.left = rest;
                ascii(text)
            }
            _ => Err(Unread::Misspelled),
        }
    }

    /// The bytes that a token of bytes stands for.
    #[tactic(auto, unfolding(mr_spec::specs::Literals::binary))]
    pub fn binary(&mut self, alloc: Global) -> Result<Blob, Unread>
        ensures { Reads (literals.binary self.old) result self.new }
    {
        match self.left {
            [first, rest @ ..] if is_bytes(first.kind) => {
                let bytes = binary_bytes(alloc, first.slice)?;
                self.left = rest;
                Ok(Blob::from_vec(bytes))
            }
            _ => Err(Unread::Misspelled),
        }
    }

    /// A number from `least` to `most`.
    #[tactic(auto, unfolding(mr_spec::specs::Phrases::number))]
    pub fn number(&mut self, least: u128, most: u128) -> Result<u128, Unread>
        requires { most < 2 ^ 127 }
        ensures reads { Reads (spec.number least most self.old) result self.new }
        ensures within { IfOk result (λ n. n ≤ most) }
    {
        match self.left {
            [first, rest @ ..] if is_number(first.kind) => {
                let Some(number) = number_of(first.slice, least, most) else {
                    return Err(Unread::Misspelled);
                };
                self.left = rest;
                Ok(number)
            }
            _ => Err(Unread::Misspelled),
        }
    }
}
