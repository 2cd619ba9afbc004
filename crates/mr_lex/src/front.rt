//! The token in front of a text.

ghost use Rattle.std.specs.Prelude.{◌≡◌, ◌≤◌, ◌<◌, false, length, drop, codes, IfSome};
ghost use Rattle.mr_lex.specs.Bytes.{starts, is_word_byte};
ghost use Rattle.mr_lex.specs.Tokens.{is_same_word, lowered, is_lone_sign as lone_sign, is_double_sign as double_sign};
ghost use Rattle.mr_lex.specs.Fronts.{completed, word_front, digits_front, begins_hex as hex_begins, quoted_end, name_if, of_kind, text_front, sign_front, front_of};

use crate::bytes::{
    digits_len, hex_digits_len, is_digit, is_hex_digit, is_letter, is_word_byte, spaces_len,
    word_len,
};
use crate::number::fits;
use crate::quoted::{name_len, quoted_len, quoted_pairs_len, text_len};
use crate::token::TokenKind;

/// A name's bytes at most.
const MOST_NAME_BYTES: usize = 64;

fn lower(byte: u8) -> u8
    ensures { result ≡ lowered byte }
{
    if b'A' <= byte && byte <= b'Z' {
        byte + 32
    } else {
        byte
    }
}

/// Whether a word is this one, given in lower case.
fn is_word(lowercase: &[u8], word: &[u8]) -> bool
    ensures { result ≡ is_same_word lowercase.now word.now }
{
    if word.len() != lowercase.len() {
        return false;
    }
    for (i, byte) in lowercase.iter().enumerate() {
        if *byte != lower(word[i]) {
            return false;
        }
    }
    true
}

/// How many bytes behind a word complete it to a token of bytes.
fn completed_len(word: &[u8], bytes: &[u8]) -> Option<usize>
    ensures within { IfSome result (λ n. n ≤ length bytes.now) }
    ensures len { result ≡ completed word.now bytes.now }
{
    if is_word(b"x", word) {
        return quoted_pairs_len(bytes);
    }
    if !is_word(b"_binary", word) {
        return None;
    }
    let spaces = spaces_len(bytes);
    match text_len(&bytes[spaces..], 255) {
        None => None,
        Some(n) => Some(spaces + n),
    }
}

fn word(text: &[u8]) -> Option<(TokenKind, usize)>
    ensures within { IfSome result (λ x. x.1 ≤ length text.now) }
    ensures value { result ≡ word_front text.now }
{
    let len = word_len(text);
    let (word, behind) = text.split_at(len);
    match completed_len(word, behind) {
        None => Some((TokenKind::Word, len)),
        Some(n) => Some((TokenKind::Bytes, len + n)),
    }
}

fn begins_hex(text: &[u8]) -> bool
    ensures { result ≡ hex_begins text.now }
{
    match text {
        [b'0', b'x', digit, ..] => is_hex_digit(*digit),
        _ => false,
    }
}

fn starts_word_byte(text: &[u8]) -> bool
    ensures { result ≡ starts is_word_byte text.now }
{
    match text {
        [] => false,
        [first, ..] => is_word_byte(*first),
    }
}

fn digits(text: &[u8]) -> Option<(TokenKind, usize)>
    ensures within { IfSome result (λ x. x.1 ≤ length text.now) }
    ensures value { result ≡ digits_front text.now }
{
    if begins_hex(text) {
        return Some((TokenKind::Bytes, 2 + hex_digits_len(&text[2..])));
    }
    let len = digits_len(text);
    let (digits, behind) = text.split_at(len);
    if fits(digits) && !starts_word_byte(behind) {
        Some((TokenKind::Number, len))
    } else {
        None
    }
}

fn name(text: &[u8]) -> Option<(TokenKind, usize)>
    ensures within { IfSome result (λ x. x.1 ≤ length text.now) }
    ensures value { result ≡ name_if (quoted_end 96 false 1 127 1 (drop 1 text.now)) (drop 1 text.now) }
{
    let Some(len) = quoted_len(text, b'`', false, 1, 127) else {
        return None;
    };
    let count = name_len(&text[1..len]);
    if 1 <= count && count <= MOST_NAME_BYTES {
        Some((TokenKind::QuotedName, len))
    } else {
        None
    }
}

fn text_token(text: &[u8]) -> Option<(TokenKind, usize)>
    ensures within { IfSome result (λ x. x.1 ≤ length text.now) }
    ensures value { result ≡ of_kind TokenKind.Text (text_front 127 text.now) }
{
    match text_len(text, 127) {
        None => None,
        Some(len) => Some((TokenKind::Text, len)),
    }
}

fn is_lone_sign(byte: u8) -> bool
    ensures { result ≡ lone_sign byte }
{
    byte == b'('
        || byte == b')'
        || byte == b','
        || byte == b'='
        || byte == b'<'
        || byte == b'>'
        || byte == b'+'
        || byte == b'-'
        || byte == b'*'
        || byte == b'.'
}

fn is_double_sign(first: u8, second: u8) -> bool
    ensures { result ≡ double_sign first second }
{
    (first == b'<' && (second == b'=' || second == b'>'))
        || (first == b'>' && second == b'=')
        || (first == b'!' && second == b'=')
}

fn sign(text: &[u8]) -> Option<(TokenKind, usize)>
    ensures within { IfSome result (λ x. x.1 ≤ length text.now) }
    ensures value { result ≡ sign_front text.now }
{
    match text {
        [first, second, ..] if is_double_sign(*first, *second) => Some((TokenKind::Sign, 2)),
        [first, ..] if is_lone_sign(*first) => Some((TokenKind::Sign, 1)),
        _ => None,
    }
}

/// The kind and the length of the token in front.
pub(crate) fn front(text: &[u8]) -> Option<(TokenKind, usize)>
    ensures within { IfSome result (λ x. x.1 ≤ length text.now) }
    ensures value { result ≡ front_of text.now }
{
    match text {
        [] => None,
        [first, ..] => {
            if is_letter(*first) {
                word(text)
            } else if is_digit(*first) {
                digits(text)
            } else if *first == b'`' {
                name(text)
            } else if *first == b'\'' || *first == b'"' {
                text_token(text)
            } else {
                sign(text)
            }
        }
    }
}
