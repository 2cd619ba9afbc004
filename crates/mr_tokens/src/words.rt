//! Keywords, names, and what tokens say.

ghost use Rattle.std.specs.Prelude.{◌≡◌, ◌<◌, ◌^◌, map, nat_lt, ◌&&◌};
ghost use Rattle.std.specs.List.{list_all};
ghost use Rattle.mr_lanes.specs.Kernels.{is_low};
ghost use Rattle.mr_lex.specs.Tokens.{lowered, is_same_word};
ghost use Rattle.mr_types.specs.Grammatical.{is_name as name_is};
ghost use Rattle.mr_types.specs.Values.{number_from};
ghost use Rattle.mr_spec.specs.Words as spec;
ghost use Rattle.mr_spec.specs.Phrases.{within};

use mr_lex::TokenKind;

pub(crate) fn is_word(kind: TokenKind) -> bool
    ensures { result ≡ spec.is_word kind }
{
    match kind {
        TokenKind::Word => true,
        _ => false,
    }
}

pub(crate) fn is_number(kind: TokenKind) -> bool
    ensures { result ≡ spec.is_number kind }
{
    match kind {
        TokenKind::Number => true,
        _ => false,
    }
}

pub(crate) fn is_text(kind: TokenKind) -> bool
    ensures { result ≡ spec.is_text kind }
{
    match kind {
        TokenKind::Text => true,
        _ => false,
    }
}

pub(crate) fn is_bytes(kind: TokenKind) -> bool
    ensures { result ≡ spec.is_bytes kind }
{
    match kind {
        TokenKind::Bytes => true,
        _ => false,
    }
}

pub(crate) fn is_sign_kind(kind: TokenKind) -> bool
    ensures { result ≡ spec.is_sign_kind kind }
{
    match kind {
        TokenKind::Sign => true,
        _ => false,
    }
}

fn lower(byte: u8) -> u8
    ensures { result ≡ lowered byte }
{
    if b'A' <= byte && byte <= b'Z' {
        byte + 32
    } else {
        byte
    }
}

/// Whether the bytes are this word, given in small letters.
pub(crate) fn is_same(word: &[u8], bytes: &[u8]) -> bool
    ensures { result ≡ is_same_word word.now bytes.now }
{
    if word.len() != bytes.len() {
        return false;
    }
    for (i, letter) in word.iter().enumerate() {
        if lower(bytes[i]) != *letter {
            return false;
        }
    }
    true
}

/// A tenth of 2^127 - 1.
const TENTH: u128 = 17014118346046923173168730371588410572;

const RESERVED: [&[u8]; 47] = [
    b"and",
    b"asc",
    b"between",
    b"bigint",
    b"by",
    b"character",
    b"collate",
    b"create",
    b"default",
    b"delete",
    b"desc",
    b"drop",
    b"exists",
    b"force",
    b"from",
    b"if",
    b"in",
    b"index",
    b"insert",
    b"int",
    b"integer",
    b"into",
    b"is",
    b"key",
    b"limit",
    b"lock",
    b"not",
    b"null",
    b"on",
    b"or",
    b"order",
    b"primary",
    b"release",
    b"replace",
    b"select",
    b"set",
    b"table",
    b"to",
    b"unique",
    b"unlock",
    b"unsigned",
    b"update",
    b"values",
    b"varbinary",
    b"varchar",
    b"where",
    b"with",
];

/// Whether the word is one of these, without regard to case.
fn is_among(words: &[&[u8]], word: &[u8]) -> bool
    ensures { result ≡ spec.is_among (map (λ w. w.now) words.now) word.now }
{
    for reserved in words {
        if is_same(reserved, word) {
            return true;
        }
    }
    false
}

/// Whether the word is no name.
#[tactic(auto, unfolding(mr_spec::specs::Words::is_reserved, mr_spec::specs::Words::reserved))]
pub(crate) fn is_reserved(word: &[u8]) -> bool
    ensures { result ≡ spec.is_reserved word.now }
{
    is_among(&RESERVED, word)
}

/// Whether each byte is from 0x01 to 0x7F.
fn are_name_bytes(name: &[u8]) -> bool
    ensures { result ≡ list_all (λ b. nat_lt 0 b && is_low b) name.now }
{
    for byte in name {
        if *byte == 0 || *byte >= 0x80 {
            return false;
        }
    }
    true
}

/// Whether these are 1 to 64 bytes from 0x01 to 0x7F.
pub(crate) fn is_name(name: &[u8]) -> bool
    ensures { result ≡ name_is name.now }
{
    0 < name.len() && name.len() <= 64 && are_name_bytes(name)
}

/// The number whose digits these are, where it is from `least` to `most`.
pub(crate) fn number_of(digits: &[u8], least: u128, most: u128) -> Option<u128>
    requires { most < 2 ^ 127 }
    ensures { result ≡ within least most (number_from 0 digits.now) }
{
    let mut value: u128 = 0;
    for digit in digits {
        if value > TENTH {
            return None;
        }
        value = 10 * value + digit.saturating_sub(b'0') as u128;
    }
    if least <= value && value <= most {
        Some(value)
    } else {
        None
    }
}
