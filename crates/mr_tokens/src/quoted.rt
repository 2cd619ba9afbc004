//! What names, texts and bytes in quotes stand for.

ghost use Rattle.std.specs.Prelude.{◌≡◌, ◌++◌, ◌<◌, IfOk, OnOk, length, ◌+◌, ◌*◌, drop};
ghost use Rattle.mr_lex.specs.Bytes.{is_space as is_space_of};
ghost use Rattle.mr_lex.specs.Tokens.{without_spaces as spaces_off};
ghost use Rattle.mr_spec.specs.Words as spec;

use std::alloc::{AllocError, Global};

/// The name behind an opening quote, up to the closing one.
pub(crate) fn undoubled(alloc: Global, quote: u8, bytes: &[u8]) -> Result<Vec<u8>, AllocError>
    ensures { IfOk result (λ v. v.items ≡ spec.undoubled quote bytes.now) }
{
    let mut found = Vec::new(alloc);
    let mut rest = bytes;
    while let [a, _, more @ ..] = rest {
        found.push(*a)?;
        rest = if *a == quote { more } else { &rest[1..] };
    }
    Ok(found)
}

/// The last byte that a backslash and this byte stand for.
#[tactic(auto, unfolding(mr_spec::specs::Words::escaped_byte))]
fn unescaped_byte(byte: u8) -> u8
    ensures { result ≡ spec.escaped_byte byte }
{
    match byte {
        b'0' => 0,
        b'b' => 8,
        b'n' => 10,
        b'r' => 13,
        b't' => 9,
        b'Z' => 26,
        _ => byte,
    }
}

/// Adds what a backslash and this byte stand for.
#[tactic(auto, unfolding(mr_spec::specs::Words::escaped))]
fn push_escaped(found: &mut Vec<u8>, byte: u8) -> Result<(), AllocError>
    ensures { OnOk result (found.new.items ≡ found.old.items ++ spec.escaped byte) }
{
    if byte == b'%' || byte == b'_' {
        found.push(b'\\')?;
    }
    found.push(unescaped_byte(byte))?;
    Ok(())
}

/// What the bytes behind an opening quote stand for, up to the closing one.
fn unescaped(alloc: Global, quote: u8, bytes: &[u8]) -> Result<Vec<u8>, AllocError>
    ensures { IfOk result (λ v. v.items ≡ spec.unescaped quote bytes.now) }
{
    let mut found = Vec::new(alloc);
    let mut rest = bytes;
    while let [a, b, more @ ..] = rest {
        if *a == quote {
            found.push(*a)?;
            rest = more;
        } else if *a == b'\\' {
            push_escaped(&mut found, *b)?;
            rest = more;
        } else {
            found.push(*a)?;
            rest = &rest[1..];
        }
    }
    Ok(found)
}

/// What a text stands for, whose first byte is its quote.
#[tactic(auto, unfolding(mr_spec::specs::Words::text_bytes))]
pub(crate) fn text_bytes(alloc: Global, token: &[u8]) -> Result<Vec<u8>, AllocError>
    ensures { IfOk result (λ v. v.items ≡ spec.text_bytes token.now) }
{
    match token {
        [] => Ok(Vec::new(alloc)),
        [quote, bytes @ ..] => unescaped(alloc, *quote, bytes),
    }
}

fn is_space(byte: u8) -> bool
    ensures { result ≡ is_space_of byte }
{
    byte == b' ' || (9 <= byte && byte <= 13)
}

fn without_spaces(bytes: &[u8]) -> &[u8]
    ensures { result.now ≡ spaces_off bytes.now }
{
    let mut rest = bytes;
    while let [first, more @ ..] = rest {
        if !is_space(*first) {
            return rest;
        }
        rest = more;
    }
    rest
}

/// The value of a hexadecimal digit.
#[tactic(auto, unfolding(mr_spec::specs::Words::hex_value))]
fn hex_value(byte: u8) -> u8
    ensures value { result ≡ spec.hex_value byte }
    ensures small { result < 16 }
{
    match byte {
        b'0'..=b'9' => byte - b'0',
        b'a'..=b'f' => byte - b'a' + 10,
        b'A'..=b'F' => byte - b'A' + 10,
        _ => 0,
    }
}

/// A byte for each two digits.
fn add_pairs(found: &mut Vec<u8>, digits: &[u8]) -> Result<(), AllocError>
    ensures { OnOk result (found.new.items ≡ found.old.items ++ spec.pairs_bytes digits.now) }
{
    let mut rest = digits;
    while let [a, b, more @ ..] = rest {
        found.push(16 * hex_value(*a) + hex_value(*b))?;
        rest = more;
    }
    Ok(())
}

#[tactic(auto, unfolding(mr_spec::specs::Words::padded_bytes))]
fn padded_bytes(alloc: Global, digits: &[u8]) -> Result<Vec<u8>, AllocError>
    ensures { IfOk result (λ v. v.items ≡ spec.padded_bytes digits.now) }
{
    let mut found = Vec::new(alloc);
    if digits.len() % 2 == 1 {
        found.push(hex_value(digits[0]))?;
        add_pairs(&mut found, &digits[1..])?;
        return Ok(found);
    }
    add_pairs(&mut found, digits)?;
    Ok(found)
}

/// The bytes that a token of bytes stands for.
#[tactic(auto, unfolding(mr_spec::specs::Words::binary_bytes))]
pub(crate) fn binary_bytes(alloc: Global, token: &[u8]) -> Result<Vec<u8>, AllocError>
    ensures { IfOk result (λ v. v.items ≡ spec.binary_bytes token.now) }
{
    match token {
        [] => Ok(Vec::new(alloc)),
        [b'0', rest @ ..] => padded_bytes(alloc, behind(rest, 1)),
        [b'_', rest @ ..] => text_bytes(alloc, without_spaces(behind(rest, 6))),
        [_, rest @ ..] => {
            let mut found = Vec::new(alloc);
            add_pairs(&mut found, behind(rest, 1))?;
            Ok(found)
        }
    }
}

/// What stands behind the first n bytes, nothing where there are fewer.
fn behind(bytes: &[u8], n: usize) -> &[u8]
    ensures { result.now ≡ drop n bytes.now }
{
    &bytes[n.min(bytes.len())..]
}
