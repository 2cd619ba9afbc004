//! The classes of bytes.

ghost use Rattle.std.specs.Prelude.{◌≡◌, ◌≤◌, length};
ghost use Rattle.std.specs.List.{prefix_len};
ghost use Rattle.mr_lex.specs.Bytes.{is_space as space, is_digit as digit, is_letter as letter, is_word_byte as word_byte, is_hex_digit as hex_digit, is_within as within};

pub(crate) fn is_space(byte: u8) -> bool
    ensures { result ≡ space byte }
{
    byte == b' ' || (9 <= byte && byte <= 13)
}

pub(crate) fn is_digit(byte: u8) -> bool
    ensures { result ≡ digit byte }
{
    b'0' <= byte && byte <= b'9'
}

pub(crate) fn is_letter(byte: u8) -> bool
    ensures { result ≡ letter byte }
{
    (b'A' <= byte && byte <= b'Z') || (b'a' <= byte && byte <= b'z') || byte == b'_' || byte == b'$'
}

pub(crate) fn is_word_byte(byte: u8) -> bool
    ensures { result ≡ word_byte byte }
{
    is_letter(byte) || is_digit(byte)
}

pub(crate) fn is_hex_digit(byte: u8) -> bool
    ensures { result ≡ hex_digit byte }
{
    is_digit(byte) || (b'A' <= byte && byte <= b'F') || (b'a' <= byte && byte <= b'f')
}

pub(crate) fn is_within(least: u8, most: u8, byte: u8) -> bool
    ensures { result ≡ within least most byte }
{
    least <= byte && byte <= most
}

/// How many bytes of a word stand in front.
pub(crate) fn word_len(bytes: &[u8]) -> usize
    ensures within { result ≤ length bytes.now }
    ensures len { result ≡ prefix_len word_byte bytes.now }
{
    let mut at = 0;
    while at < bytes.len() && is_word_byte(bytes[at]) {
        at += 1;
    }
    at
}

/// How many decimal digits stand in front.
pub(crate) fn digits_len(bytes: &[u8]) -> usize
    ensures within { result ≤ length bytes.now }
    ensures len { result ≡ prefix_len digit bytes.now }
{
    let mut at = 0;
    while at < bytes.len() && is_digit(bytes[at]) {
        at += 1;
    }
    at
}

/// How many hexadecimal digits stand in front.
pub(crate) fn hex_digits_len(bytes: &[u8]) -> usize
    ensures within { result ≤ length bytes.now }
    ensures len { result ≡ prefix_len hex_digit bytes.now }
{
    let mut at = 0;
    while at < bytes.len() && is_hex_digit(bytes[at]) {
        at += 1;
    }
    at
}

/// How many bytes of white space stand in front.
pub(crate) fn spaces_len(bytes: &[u8]) -> usize
    ensures within { result ≤ length bytes.now }
    ensures len { result ≡ prefix_len space bytes.now }
{
    let mut at = 0;
    while at < bytes.len() && is_space(bytes[at]) {
        at += 1;
    }
    at
}
